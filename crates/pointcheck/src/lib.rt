// The point check: whether a lent transcript answers for a prepared circuit at one point.
//
// Public call: `check_point`. It decides first, reading only, and then does the work. F is not multiplied out: its polynomials are evaluated
// at zeta, and the numbers are combined.
#![tactic(auto)]

ghost use Rattle.std.specs.Prelude.{◌≡◌, replicate};
ghost use Rattle.circuit.specs.Buffers.{work_length, blinded_by};
ghost use Rattle.field.specs.Reasons.{outcome};
ghost use Rattle.pointcheck.specs.Promises.{PointChecks, judged_at};
ghost use Rattle.pointcheck.specs.Buffers.{Checked};

use field::Refusal;

mod combine;
mod decide;
mod publics;
mod sides;
mod values;

// The verdict of the check.
#[derive(Clone, Copy, Debug, PartialEq, Eq)]
pub enum Judged {
    Accept,
    Reject,
}

// The work on checked numbers: the two sides at zeta are compared, and the scratch is cleared.
fn work(
    p: u32,
    n: u32,
    publics: &[u32],
    prepared: &[u32],
    transcript: &[u32],
    challenges: &[u32],
    scratch: &mut [u32],
) -> Judged
    requires { Checked p n publics.now prepared.now transcript.now challenges.now scratch.old }
    ensures value { result ≡ judged_at p n publics.now prepared.now transcript.now challenges.now }
    ensures scratch_after { scratch.new ≡ replicate (work_length (blinded_by n transcript.now) n) 0 }
{
    let e = circuit::blinded_by(n as usize, transcript);
    let x = publics::public_at(p, n, publics, challenges[3], scratch);
    scratch.fill(0);
    if sides::equal_at(e, p, n, x, prepared, transcript, challenges) {
        return Judged::Accept;
    }
    Judged::Reject
}

// Accept if F(zeta) = t(zeta) × (zeta^n - 1), else reject; or why the call is turned down. The transcript may be blinded: its length decides.
// The challenges are beta, gamma, alpha, zeta.
pub fn check_point(
    p: u32,
    n: u32,
    l: u32,
    publics: &[u32],
    prepared: &[u32],
    transcript: &[u32],
    challenges: &[u32],
    scratch: &mut [u32],
) -> Result<Judged, Refusal>
    ensures { PointChecks p n l publics.now prepared.now transcript.now challenges.now scratch.old (outcome result) scratch.new }
{
    decide::decide(p, n, l, publics, prepared, transcript, challenges, scratch)?;
    Ok(work(p, n, publics, prepared, transcript, challenges, scratch))
}
