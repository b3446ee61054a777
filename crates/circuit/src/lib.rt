// The circuit: its copy permutation, and the polynomials in lent buffers by number.
//
// Public calls: `permutation` and `polynomial`. The other functions are for the layers above, which have checked their numbers.
#![tactic(auto)]

ghost use Rattle.std.specs.Prelude.{◌≡◌};
ghost use Rattle.field.specs.Reasons.{told, answer_of};
ghost use Rattle.circuit.specs.Reasons.{permutation_reasons};
ghost use Rattle.circuit.specs.Promises.{Permutes, polynomial_part, Hands};

use field::Refusal;

mod copies;
pub mod due;
mod lengths;
mod parts;
mod publics;
mod reasons;
mod selectors;
mod tags;
mod witness;

pub use copies::{fill_permutation, lowest};
pub use lengths::{
    BLINDER_COUNT, POLYNOMIAL_COUNT, PREPARED_COUNT, PREPARED_ROOM, SELECTOR_COUNT, WIRED_NUMBER,
    blinded_by, f_length, labels_length, opening_length, prepared_length, quotient_length,
    selectors_length, t_start, transcript_length, wire_length, witness_length, work_length,
    z_length, z_start,
};
pub use parts::{any_rows, prepared_part, t_part, wire_part, z_part};
pub use publics::{public_of, public_polynomial};
pub use reasons::{decide_block, decide_filled, decide_numbers};
pub use selectors::unbound_row;
pub use tags::{factor_of, multiplier_of, tags_in_place, wired_tags};
pub use witness::{column_values, lay_by_rows, wire_value, wire_values};

// Why a call of `permutation` is turned down, if it is. Nothing is written.
fn decide(p: u32, n: u32, labels: &[u32], positions: &[u32]) -> Result<(), Refusal>
    ensures { told result ≡ answer_of (permutation_reasons p n labels.now positions.now) }
{
    let long = [labels.len(), positions.len()];
    let due = due::permutation(n as usize);
    field::decide_lent(p, n, 0, &long, &due)?;
    reasons::decide_labels(n, labels)
}

// The position that the copy permutation leads to from each of the 3n positions.
pub fn permutation(p: u32, n: u32, labels: &[u32], positions: &mut [u32]) -> Result<(), Refusal>
    ensures { Permutes p n labels.now positions.old (told result) positions.new }
{
    decide(p, n, labels, positions)?;
    fill_permutation(labels, positions);
    Ok(())
}

// Polynomial `number` of the lent buffers: those of the prepared circuit come first, then the wires, z and t of the transcript, which may be
// blinded. The empty part at the transcript's start stands for any other number, and where n or a length is wrong.
pub fn polynomial<'a>(n: u32, number: u32, prepared: &'a [u32], transcript: &'a [u32]) -> &'a [u32]
    ensures { Hands (polynomial_part n number prepared.entry transcript.entry) result }
{
    if !parts::any_rows(n) {
        return &transcript[..0];
    }
    let m = n as usize;
    if prepared.len() != lengths::prepared_length(m) {
        return &transcript[..0];
    }
    let e = lengths::blinded_by(m, transcript);
    if transcript.len() != lengths::transcript_length(e, m) {
        return &transcript[..0];
    }
    parts::part(e, m, number, prepared, transcript)
}
