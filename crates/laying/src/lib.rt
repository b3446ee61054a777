// The first four polynomials of the transcript: the wires a, b, c and the grand product z, laid end to end, and blinded where e is 1; e is 0 or 1.
//
// The public function is `lay_rows`, for the prover, which has checked its numbers.
#![tactic(auto)]

ghost use Rattle.std.specs.Prelude.{◌≡◌, List, ℕ, ◌<◌, length};
ghost use Rattle.std.proofs.Math.Option.{some, map};
ghost use Rattle.algebra.specs.Polynomial.{coef, Elements};
ghost use Rattle.transform.specs.Parts.{laid};
ghost use Rattle.transform.specs.Transform.{interpolation};
ghost use Rattle.circuit.specs.Buffers.{witness_length, wire_length, z_start, z_length, t_start};
ghost use Rattle.circuit.specs.Circuit.{position, lent_constraints, lent_witness};
ghost use Rattle.protocol.specs.Protocol.{z_rows, wires_of, z_of};
ghost use Rattle.laying.specs.Rows.{laid_rows};
ghost use Rattle.laying.specs.Buffers.{Ready, Blinders, NoZero};

use field::rows::Domain;

mod blinding;
mod grand;

// The polynomial through the wire values of a column.
fn lay_column(domain: &Domain, witness: &[u32], column: usize, out: &mut [u32], spare: &mut [u32])
    requires points { Elements domain.now.p (witness_length domain.now.n) witness.now × (column < 3) }
    requires out_len { (length out.old ≡ domain.now.n) × (length spare.old ≡ domain.now.n) }
    ensures { out.new ≡ interpolation domain.now.p domain.now.n (λ i. lent_witness domain.now.n witness.now (position domain.now.n column i)) }
{
    circuit::column_values(domain.n as usize, witness, column, out);
    transform::interpolate_in_place(domain, out, spare);
}

// The wire of a column.
fn lay_wire(
    e: usize,
    domain: &Domain,
    witness: &[u32],
    blinders: &[u32],
    column: usize,
    out: &mut [u32],
    spare: &mut [u32],
)
    requires points { Elements domain.now.p (witness_length domain.now.n) witness.now × (column < 3) × Blinders e blinders.now }
    requires out_len { (length out.old ≡ wire_length e domain.now.n) × (length spare.old ≡ domain.now.n) }
    ensures { out.new ≡ wires_of e domain.now.p domain.now.n (lent_witness domain.now.n witness.now) blinders.now column }
{
    let m = domain.n as usize;
    let r = blinding::wire_blinder(e, blinders, column);
    lay_column(domain, witness, column, &mut out[..m], spare);
    blinding::blind(domain.p, m, &r[..2 * e], out);
}

// The three wires, end to end.
fn lay_wires(
    e: usize,
    domain: &Domain,
    witness: &[u32],
    blinders: &[u32],
    out: &mut [u32],
    spare: &mut [u32],
)
    requires points { Elements domain.now.p (witness_length domain.now.n) witness.now × Blinders e blinders.now }
    requires out_len { (length out.old ≡ z_start e domain.now.n) × (length spare.old ≡ domain.now.n) }
    ensures { out.new ≡ laid (wires_of e domain.now.p domain.now.n (lent_witness domain.now.n witness.now) blinders.now) 3 }
{
    let k = circuit::wire_length(e, domain.n as usize);
    for column in 0..3 {
        lay_wire(
            e,
            domain,
            witness,
            blinders,
            column,
            &mut out[column * k..(column + 1) * k],
            spare,
        );
    }
}

// The polynomial through z on the rows, where no factor of any D(i) is 0.
fn lay_grand(
    domain: &Domain,
    labels: &[u32],
    witness: &[u32],
    beta: u32,
    gamma: u32,
    out: &mut [u32],
    spare: &mut [u32],
)
    requires ready { Ready domain.now.p domain.now.n labels.now witness.now × NoZero domain.now.p domain.now.n labels.now witness.now beta gamma }
    requires out_len { (length out.old ≡ domain.now.n) × (length spare.old ≡ domain.now.n) }
    ensures elements { Elements domain.now.p domain.now.n out.new }
    ensures by_index { (selectors : List ℕ) → map (λ rows. interpolation domain.now.p domain.now.n (coef rows)) (z_rows domain.now.p domain.now.n (lent_constraints domain.now.n selectors labels.now) (lent_witness domain.now.n witness.now) beta gamma) ≡ some out.new }
{
    grand::z_rows(domain, labels, witness, beta, gamma, out);
    transform::interpolate_in_place(domain, out, spare);
}

// The polynomial z.
fn lay_z(
    e: usize,
    domain: &Domain,
    labels: &[u32],
    witness: &[u32],
    blinders: &[u32],
    beta: u32,
    gamma: u32,
    out: &mut [u32],
    spare: &mut [u32],
)
    requires ready { Ready domain.now.p domain.now.n labels.now witness.now × NoZero domain.now.p domain.now.n labels.now witness.now beta gamma × Blinders e blinders.now }
    requires out_len { (length out.old ≡ z_length e domain.now.n) × (length spare.old ≡ domain.now.n) }
    ensures { (selectors : List ℕ) → z_of e domain.now.p domain.now.n (lent_constraints domain.now.n selectors labels.now) (lent_witness domain.now.n witness.now) blinders.now beta gamma ≡ some out.new }
{
    let m = domain.n as usize;
    let r = blinding::z_blinder(e, blinders);
    lay_grand(domain, labels, witness, beta, gamma, &mut out[..m], spare);
    blinding::blind(domain.p, m, &r[..3 * e], out);
}

// a, b, c and z end to end, where no factor of any D(i) is 0. The labels alone say where the permutation leads; the selectors play no part.
pub fn lay_rows(
    e: usize,
    domain: &Domain,
    labels: &[u32],
    witness: &[u32],
    blinders: &[u32],
    beta: u32,
    gamma: u32,
    out: &mut [u32],
    spare: &mut [u32],
)
    requires ready { Ready domain.now.p domain.now.n labels.now witness.now × NoZero domain.now.p domain.now.n labels.now witness.now beta gamma × Blinders e blinders.now }
    requires out_len { (length out.old ≡ t_start e domain.now.n) × (length spare.old ≡ domain.now.n) }
    ensures { (selectors : List ℕ) → laid_rows e domain.now.p domain.now.n (lent_constraints domain.now.n selectors labels.now) (lent_witness domain.now.n witness.now) blinders.now beta gamma ≡ some out.new }
{
    let k = circuit::z_start(e, domain.n as usize);
    lay_wires(e, domain, witness, blinders, &mut out[..k], spare);
    lay_z(
        e,
        domain,
        labels,
        witness,
        blinders,
        beta,
        gamma,
        &mut out[k..],
        spare,
    );
}
