// Why a call is turned down, if it is: document 01's reasons in order. Nothing is written.
ghost use Rattle.std.specs.Prelude.{◌≡◌, [], ◌∷◌, ◌++◌, ◌+◌, ◌≤◌, length};
ghost use Rattle.field.specs.Reasons.{told, answer_of, bad_element};
ghost use Rattle.circuit.specs.Reasons.{point_reasons};

use field::{Cause, Refusal};

// The reason of the numbers in the buffers that are read.
fn numbers(
    p: u32,
    publics: &[u32],
    prepared: &[u32],
    transcript: &[u32],
    challenges: &[u32],
) -> Result<(), Refusal>
    requires { length publics.now + length prepared.now + length transcript.now + length challenges.now ≤ 65536 }
    ensures { told result ≡ answer_of (bad_element p (publics.now ++ (prepared.now ++ (transcript.now ++ challenges.now))) ∷ []) }
{
    let at = field::first_of_four(p, publics, prepared, transcript, challenges);
    let count = publics.len() + prepared.len() + transcript.len() + challenges.len();
    field::decide_at(Cause::Element, at, count)
}

// The reasons in order.
pub fn decide(
    p: u32,
    n: u32,
    l: u32,
    publics: &[u32],
    prepared: &[u32],
    transcript: &[u32],
    challenges: &[u32],
    scratch: &[u32],
) -> Result<(), Refusal>
    ensures { told result ≡ answer_of (point_reasons p n l publics.now prepared.now transcript.now challenges.now scratch.now) }
{
    let long = [
        publics.len(),
        prepared.len(),
        transcript.len(),
        challenges.len(),
        scratch.len(),
    ];
    let e = circuit::blinded_by(n as usize, transcript);
    let due = circuit::due::point(e, n as usize, l as usize);
    field::decide_lent(p, n, l, &long, &due)?;
    numbers(p, publics, prepared, transcript, challenges)
}
