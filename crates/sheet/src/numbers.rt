// The reasons of the numbers in the table, which are counted as they are lent.
ghost use Rattle.std.specs.Prelude.{◌≡◌, List, [], ◌∷◌, ℕ, ◌≤◌};
ghost use Rattle.algebra.specs.Lists.{tab};
ghost use Rattle.field.specs.Reasons.{told, answer_of, first_above, bad_element};
ghost use Rattle.circuit.specs.Circuit.{lent_constraints};
ghost use Rattle.circuit.specs.Buffers.{selectors_length, labels_length};
ghost use Rattle.circuit.specs.Reasons.{bad_label, bad_public_row};
ghost use Rattle.sheet.specs.Table.{Full, table_elements, selectors_in, labels_in};
ghost use Rattle.sheet.specs.Deciding.{table_numbers};

use super::{blocks, laying};
use field::{Cause, Refusal};

// The place of the first element that is p or more, counted through selectors, witness, public inputs, challenges and the blinders of e lines end
// to end; their number where there is none.
fn elements(e: usize, p: u32, n: usize, l: usize, table: &[u32]) -> usize
    requires { Full n l table.now × (e ≤ 1) }
    ensures { result ≡ first_above p (table_elements e n l table.now) }
{
    let selectors = circuit::selectors_length(n);
    let passed = selectors + circuit::witness_length(n);
    let a = laying::above(p, table, blocks::selectors(n));
    let b = laying::then_above(p, a, selectors, table, blocks::witness(n));
    let c = laying::then_above(p, b, passed, table, blocks::publics(n, l));
    let d = laying::then_above(p, c, passed + l, table, blocks::challenges(n, l));
    let behind = passed + l + super::CHALLENGE_COUNT;
    laying::then_above(p, d, behind, table, blocks::blinders(e, n, l))
}

// The reason of the elements.
fn decide_elements(e: usize, p: u32, n: usize, l: usize, table: &[u32]) -> Result<(), Refusal>
    requires { Full n l table.now × (e ≤ 1) }
    ensures { told result ≡ answer_of (bad_element p (table_elements e n l table.now) ∷ []) }
{
    let at = elements(e, p, n, l, table);
    let count = circuit::selectors_length(n)
        + circuit::witness_length(n)
        + l
        + super::CHALLENGE_COUNT
        + circuit::BLINDER_COUNT * e;
    field::decide_at(Cause::Element, at, count)
}

// The reason of the labels.
fn decide_labels(n: usize, table: &[u32]) -> Result<(), Refusal>
    requires { Full n 0 table.now }
    ensures { told result ≡ answer_of (bad_label n (tab (labels_in table.now n) (labels_length n)) ∷ []) }
{
    let place = laying::above(3 * (n as u32), table, blocks::labels(n));
    field::decide_at(Cause::Label, place, circuit::labels_length(n))
}

// The reason of the public rows. Row i's selectors are the first words of line i + 1.
fn decide_public_rows(n: usize, l: usize, table: &[u32]) -> Result<(), Refusal>
    requires { Full n l table.now }
    ensures { (labels : List ℕ) → told result ≡ answer_of (bad_public_row (lent_constraints n (tab (selectors_in table.now n) (selectors_length n)) labels) l ∷ []) }
{
    let start = super::table_place(1, 0);
    let row = circuit::unbound_row(table, start, super::table::LINE_WORDS, 1, l);
    field::decide_at(Cause::PublicRow, row, l)
}

// The reasons of the elements, then those of the circuit: labels and public rows.
pub fn decide_numbers(e: usize, p: u32, n: usize, l: usize, table: &[u32]) -> Result<(), Refusal>
    requires { Full n l table.now × (e ≤ 1) }
    ensures { told result ≡ answer_of (table_numbers e p n l table.now) }
{
    decide_elements(e, p, n, l, table)?;
    decide_labels(n, table)?;
    decide_public_rows(n, l, table)
}
