// Preparing a circuit: the polynomials of its selectors and of the tags of where the permutation leads.
//
// The public call is `prepare`. `work` is for the prover too, which has checked its numbers.
#![tactic(auto)]

ghost use Rattle.std.specs.Prelude.{◌≡◌, ◌*◌, length, replicate};
ghost use Rattle.algebra.specs.Polynomial.{Elements};
ghost use Rattle.field.specs.Reasons.{told, answer_of};
ghost use Rattle.transform.specs.Transform.{scratch_length};
ghost use Rattle.circuit.specs.Circuit.{lent_constraints};
ghost use Rattle.circuit.specs.Buffers.{selectors_length, labels_length, prepared_length};
ghost use Rattle.circuit.specs.Reasons.{prepare_reasons};
ghost use Rattle.protocol.specs.Protocol.{prepared};
ghost use Rattle.preparing.specs.Promises.{Prepares, Checked, rows_of};

use field::Refusal;
use field::rows::Domain;

// Why a call is turned down, if it is. Nothing is written.
fn decide(
    p: u32,
    n: u32,
    l: u32,
    selectors: &[u32],
    labels: &[u32],
    written: &[u32],
    scratch: &[u32],
) -> Result<(), Refusal>
    ensures { told result ≡ answer_of (prepare_reasons p n l selectors.now labels.now written.now scratch.now) }
{
    let long = [selectors.len(), labels.len(), written.len(), scratch.len()];
    let due = circuit::due::prepare(n as usize);
    field::decide_lent(p, n, l, &long, &due)?;
    let at = field::first_above(p, selectors);
    circuit::decide_numbers(n, l, at, selectors.len(), selectors, labels)
}

// The row values of the polynomials, end to end: the selectors, then the tags of where the permutation leads.
fn fill_rows(domain: &Domain, selectors: &[u32], labels: &[u32], out: &mut [u32])
    requires selectors_len { length selectors.now ≡ selectors_length domain.now.n }
    requires labels { Elements (3 * domain.now.n) (labels_length domain.now.n) labels.now }
    requires out_len { length out.old ≡ prepared_length domain.now.n }
    ensures { out.new ≡ rows_of domain.now.p domain.now.n selectors.now labels.now }
{
    let m = selectors.len();
    transform::slices::copy(selectors, &mut out[..m]);
    circuit::wired_tags(domain, labels, &mut out[m..]);
}

// The work on checked numbers: the row values, each run of n of them interpolated in place, and the scratch cleared.
pub fn work(
    domain: &Domain,
    selectors: &[u32],
    labels: &[u32],
    out: &mut [u32],
    scratch: &mut [u32],
)
    requires { Checked domain.now.p domain.now.n selectors.now labels.now out.old scratch.old }
    ensures out_after { out.new ≡ prepared domain.now.p domain.now.n (lent_constraints domain.now.n selectors.now labels.now) }
    ensures scratch_after { scratch.new ≡ replicate (scratch_length domain.now.n) 0 }
{
    let m = domain.n as usize;
    fill_rows(domain, selectors, labels, out);
    transform::interpolate_parts(domain, out, &mut scratch[..m], circuit::PREPARED_COUNT);
    scratch.fill(0);
}

// The prepared circuit: qL, qR, qO, qM, qC and the three polynomials of the tags of where the permutation leads, end to end. l is the number of
// public inputs: the rows below it must be public rows.
pub fn prepare(
    p: u32,
    n: u32,
    l: u32,
    selectors: &[u32],
    labels: &[u32],
    written: &mut [u32],
    scratch: &mut [u32],
) -> Result<(), Refusal>
    ensures { Prepares p n l selectors.now labels.now written.old scratch.old (told result) written.new scratch.new }
{
    decide(p, n, l, selectors, labels, written, scratch)?;
    work(&Domain::new(p, n), selectors, labels, written, scratch);
    Ok(())
}
