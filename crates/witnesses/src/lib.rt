// The prover's reasons for turning a call down, in document 01's order, with document 02's 16 straight after 2: those of the prime, of the
// buffers, and of the witness.
//
// The call is `decide`. Nothing is written to a lent buffer.
#![tactic(auto)]

ghost use Rattle.std.specs.Prelude.{◌≡◌, [], ◌≤◌, get_or};
ghost use Rattle.field.specs.Reasons.{told, answer_of};
ghost use Rattle.circuit.specs.Circuit.{lent_constraints, lent_public, lent_witness};
ghost use Rattle.protocol.specs.Protocol.{witness_reasons, prove_reasons};
ghost use Rattle.witnesses.specs.Buffers.{Checked};

use field::{Cause, Refusal};

mod reasons;
mod scans;

// The reasons of the witness, on checked numbers: a gate fails, a copy differs, a factor is 0.
fn of_witness(
    p: u32,
    n: u32,
    selectors: &[u32],
    labels: &[u32],
    witness: &[u32],
    publics: &[u32],
    challenges: &[u32],
) -> Result<(), Refusal>
    requires { Checked p n selectors.now labels.now witness.now challenges.now }
    ensures { told result ≡ answer_of (witness_reasons p n (lent_constraints n selectors.now labels.now) (lent_public publics.now) (lent_witness n witness.now) (get_or challenges.now 0 0) (get_or challenges.now 1 0)) }
{
    let m = n as usize;
    let row = scans::broken_gate(p, m, selectors, witness, publics);
    field::decide_at(Cause::Gate, row, m)?;
    let place = scans::broken_copy(m, labels, witness);
    field::decide_at(Cause::Copy, place, 3 * m)?;
    let at = scans::zero_row(p, n, labels, witness, challenges[0], challenges[1]);
    field::decide_at(Cause::Factor, at, m)
}

// Why a call of the prover is turned down, if it is: of `prove_blinded` where e is 1, and else of `prove`, which is lent no blinders. The transcript and the scratch are looked at for their length only.
pub fn decide(
    e: usize,
    p: u32,
    n: u32,
    l: u32,
    selectors: &[u32],
    labels: &[u32],
    witness: &[u32],
    publics: &[u32],
    transcript: &[u32],
    challenges: &[u32],
    blinders: &[u32],
    scratch: &[u32],
) -> Result<(), Refusal>
    requires { (e ≤ 1) × (e ≡ 0 → blinders.now ≡ []) }
    ensures { told result ≡ answer_of (prove_reasons e p n l selectors.now labels.now witness.now publics.now transcript.now challenges.now blinders.now scratch.now) }
{
    field::decide_prime(p)?;
    reasons::of_buffers(
        e, p, n, l, selectors, labels, witness, publics, transcript, challenges, blinders, scratch,
    )?;
    of_witness(p, n, selectors, labels, witness, publics, challenges)
}
