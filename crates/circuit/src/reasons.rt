// Reasons for turning a call down that several calls share. Nothing is written.
ghost use Rattle.std.specs.Prelude.{◌≡◌, List, [], ◌∷◌, ◌++◌, ℕ, ◌≤◌, length};
ghost use Rattle.field.specs.Reasons.{told, answer_of, reason_at, lent_reasons};
ghost use Rattle.field.specs.Lent.{Lent};
ghost use Rattle.circuit.specs.Circuit.{lent_constraints};
ghost use Rattle.circuit.specs.Buffers.{selectors_length};
ghost use Rattle.circuit.specs.Reasons.{bad_label, bad_public_row, is_block, bad_block, circuit_reasons, number_reasons};
ghost use Rattle.circuit.specs.Countable.{Countable};

use field::{Cause, Refusal};

// The reason of the labels, 8.
pub fn decide_labels(n: u32, labels: &[u32]) -> Result<(), Refusal>
    requires { (n ≤ 1024) × (length labels.now ≤ 65536) }
    ensures { told result ≡ answer_of (bad_label n labels.now ∷ []) }
{
    field::decide_at(
        Cause::Label,
        field::first_above(3 * n, labels),
        labels.len(),
    )
}

// The reason of the public rows, 14.
fn decide_public_rows(n: u32, l: u32, selectors: &[u32]) -> Result<(), Refusal>
    requires { (n ≤ 1024) × (l ≤ n) × (length selectors.now ≡ selectors_length n) }
    ensures { (labels : List ℕ) → told result ≡ answer_of (bad_public_row (lent_constraints n selectors.now labels) l ∷ []) }
{
    let count = l as usize;
    let row = super::selectors::unbound_row(selectors, 0, 1, n as usize, count);
    field::decide_at(Cause::PublicRow, row, count)
}

// A block length of n rows: a power of two that divides n. The count of ones tells a power of two.
#[tactic(auto, unfolding(crate::specs::Reasons::is_block))]
fn is_block(n: u32, block: u32) -> bool
    ensures { result ≡ is_block n block }
{
    u32::count_ones(block) == 1 && n % block == 0
}

// The reason of the block length, 17.
pub fn decide_block(n: u32, block: u32) -> Result<(), Refusal>
    ensures { told result ≡ answer_of (bad_block n block ∷ []) }
{
    if is_block(n, block) {
        return Ok(());
    }
    field::refused(Cause::Block, 0)
}

// The reasons of the circuit, 8 and 14.
fn decide_circuit(n: u32, l: u32, selectors: &[u32], labels: &[u32]) -> Result<(), Refusal>
    requires { (n ≤ 1024) × (l ≤ n) × (length selectors.now ≡ selectors_length n) × (length labels.now ≤ 65536) }
    ensures { told result ≡ answer_of (circuit_reasons n l selectors.now labels.now) }
{
    decide_labels(n, labels)?;
    decide_public_rows(n, l, selectors)
}

// The reasons of the numbers in the buffers, 7, 8 and 14. `at` is the place of the first number that is p or more, among `count`; `count` stands
// for none.
pub fn decide_numbers(
    n: u32,
    l: u32,
    at: usize,
    count: usize,
    selectors: &[u32],
    labels: &[u32],
) -> Result<(), Refusal>
    requires n_bound { (n ≤ 1024) × (l ≤ n) × (count ≤ 65536) }
    requires selectors_len { (length selectors.now ≡ selectors_length n) × (length labels.now ≤ 65536) }
    ensures { told result ≡ answer_of (reason_at 7 at count ∷ circuit_reasons n l selectors.now labels.now) }
{
    field::decide_at(Cause::Element, at, count)?;
    decide_circuit(n, l, selectors, labels)
}

// The reasons of a call that is lent a circuit and what it is filled with: those of p, n, l and the lengths, `long` being the lengths of the call's buffers, and `due` those due; then those of
// the numbers in the buffers, end to end. The last two are the row values of z and the challenges, or, of a call that is lent no such values, the challenges and the blinders.
pub fn decide_filled(
    p: u32,
    n: u32,
    l: u32,
    long: &[usize],
    due: &[usize],
    selectors: &[u32],
    labels: &[u32],
    witness: &[u32],
    publics: &[u32],
    more: &[u32],
    last: &[u32],
) -> Result<(), Refusal>
    requires long_len { (length long.now ≡ length due.now) × (length due.now ≤ 16) }
    requires countable { Lent p n l long.now due.now → Countable n selectors.now labels.now witness.now publics.now more.now last.now }
    ensures { told result ≡ answer_of (lent_reasons p n l long.now due.now ++ number_reasons p n l (selectors.now ++ (witness.now ++ (publics.now ++ (more.now ++ last.now)))) selectors.now labels.now) }
{
    field::decide_lent(p, n, l, long, due)?;
    let at = field::first_of_four(p, selectors, witness, publics, more);
    let four = selectors.len() + witness.len() + publics.len() + more.len();
    let place = field::then_above(p, at, four, last);
    decide_numbers(n, l, place, four + last.len(), selectors, labels)
}
