// The row check: the three identities, row by row, in document 01's order.
//
// The public call is `check_rows`.
#![tactic(auto)]

ghost use Rattle.std.specs.Prelude.{◌≡◌, get_or};
ghost use Rattle.circuit.specs.Circuit.{lent_constraints, lent_public, lent_witness};
ghost use Rattle.protocol.specs.Protocol.{row_verdict};
ghost use Rattle.field.specs.Reasons.{outcome};
ghost use Rattle.rowcheck.specs.Promises.{verdict_of, lent_z, ChecksRows};
ghost use Rattle.rowcheck.specs.Buffers.{Checked};

use field::Refusal;
use field::rows::Domain;
use rowwise::products::Products;

mod reasons;
mod verdicts;

// The identity that fails: the gate; z = 1 at row 0; the step from a row to the next.
#[derive(Clone, Copy, Debug, PartialEq, Eq)]
pub enum Identity {
    Gate,
    Start,
    Step,
}

// Every row holds; or the first identity that fails, with its row.
#[derive(Clone, Copy, Debug, PartialEq, Eq)]
pub enum Verdict {
    Pass,
    Fails(Identity, u32),
}

// The verdict on checked numbers: the tags are laid out once, and then the rows are judged.
fn work(
    p: u32,
    n: u32,
    selectors: &[u32],
    labels: &[u32],
    witness: &[u32],
    publics: &[u32],
    z: &[u32],
    challenges: &[u32],
) -> Verdict
    requires { Checked p n selectors.now labels.now witness.now z.now challenges.now }
    ensures { result ≡ verdict_of (row_verdict p n (lent_constraints n selectors.now labels.now) (lent_public publics.now) (lent_witness n witness.now) (lent_z z.now) (get_or challenges.now 0 0) (get_or challenges.now 1 0)) }
{
    let m = n as usize;
    let k = 3 * m;
    let domain = Domain::new(p, n);
    let own = rowwise::tables::own(&domain);
    let wired = rowwise::tables::wired(&domain, labels);
    let rows = Products {
        p,
        n: m,
        witness,
        own: &own[..k],
        wired: &wired[..k],
        beta: challenges[0],
        gamma: challenges[1],
    };
    verdicts::judge_rows(&rows, selectors, publics, z)
}

// Whether the three identities hold at every row, and where not, at which first.
pub fn check_rows(
    p: u32,
    n: u32,
    l: u32,
    selectors: &[u32],
    labels: &[u32],
    witness: &[u32],
    publics: &[u32],
    z: &[u32],
    challenges: &[u32],
) -> Result<Verdict, Refusal>
    ensures { ChecksRows p n l selectors.now labels.now witness.now publics.now z.now challenges.now (outcome result) }
{
    reasons::decide(p, n, l, selectors, labels, witness, publics, z, challenges)?;
    Ok(work(p, n, selectors, labels, witness, publics, z, challenges))
}
