// The reasons of p, n, l and the buffers: document 01's 2 to 8, and document 02's 14. Nothing is written.
ghost use Rattle.std.specs.Prelude.{◌≡◌, [], ◌≤◌};
ghost use Rattle.field.specs.Reasons.{told, answer_of};
ghost use Rattle.circuit.specs.Reasons.{prove_buffer_reasons};

use field::Refusal;

// The reasons in order: p, n, l and the lengths; then the numbers, the labels and the public rows in the buffers. The transcript and the scratch are looked at for their length only.
pub fn of_buffers(
    e: usize,
    p: u32,
    n: u32,
    l: u32,
    selectors: &[u32],
    labels: &[u32],
    witness: &[u32],
    publics: &[u32],
    transcript: &[u32],
    challenges: &[u32],
    blinders: &[u32],
    scratch: &[u32],
) -> Result<(), Refusal>
    requires { (e ≤ 1) × (e ≡ 0 → blinders.now ≡ []) }
    ensures { told result ≡ answer_of (prove_buffer_reasons e p n l selectors.now labels.now witness.now publics.now transcript.now challenges.now blinders.now scratch.now) }
{
    let long = [
        selectors.len(),
        labels.len(),
        witness.len(),
        publics.len(),
        transcript.len(),
        challenges.len(),
        circuit::due::behind(e, blinders.len(), scratch.len()),
        scratch.len(),
    ];
    let due = circuit::due::prove(e, n as usize, l as usize);
    circuit::decide_filled(
        p,
        n,
        l,
        circuit::due::counted(e, &long),
        circuit::due::counted(e, &due),
        selectors,
        labels,
        witness,
        publics,
        challenges,
        blinders,
    )
}
