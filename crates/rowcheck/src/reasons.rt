// Why a call of `check_rows` is turned down, if it is. Nothing is written.
ghost use Rattle.std.specs.Prelude.{◌≡◌};
ghost use Rattle.field.specs.Reasons.{told, answer_of};
ghost use Rattle.circuit.specs.Reasons.{rows_reasons};

use field::Refusal;

// The reasons in order: p, n, l and the lengths; then the numbers, the labels and the public rows in the buffers.
pub fn decide(
    p: u32,
    n: u32,
    l: u32,
    selectors: &[u32],
    labels: &[u32],
    witness: &[u32],
    publics: &[u32],
    z: &[u32],
    challenges: &[u32],
) -> Result<(), Refusal>
    ensures { told result ≡ answer_of (rows_reasons p n l selectors.now labels.now witness.now publics.now z.now challenges.now) }
{
    let long = [
        selectors.len(),
        labels.len(),
        witness.len(),
        publics.len(),
        z.len(),
        challenges.len(),
    ];
    let due = circuit::due::rows(n as usize, l as usize);
    circuit::decide_filled(
        p, n, l, &long, &due, selectors, labels, witness, publics, z, challenges,
    )
}
