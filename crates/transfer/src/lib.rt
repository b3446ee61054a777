// The transfer of a witness between the layout in which it was lent before request 8 of document 02, column after column, and that in which it is lent since, row
// by row: for callers who hold buffers in the former.
//
// The public calls are `to_rows` and `to_columns`.
#![tactic(auto)]

ghost use Rattle.std.specs.Prelude.{◌≡◌};
ghost use Rattle.field.specs.Reasons.{told, answer_of};
ghost use Rattle.transfer.specs.Transfer.{to_rows, to_columns, transfer_reasons, Transfers};

use field::{Cause, Refusal};

// Why a call is turned down, if it is. Nothing is written.
fn decide(n: u32, from: &[u32], to: &[u32]) -> Result<(), Refusal>
    ensures { told result ≡ answer_of (transfer_reasons n from.now to.now) }
{
    if !circuit::any_rows(n) {
        return field::refused(Cause::Rows, 0);
    }
    let long = [from.len(), to.len()];
    let each = circuit::witness_length(n as usize);
    let due = [each, each];
    field::decide_lengths(&long, &due)
}

// 3n numbers that stand column after column, row by row.
pub fn to_rows(n: u32, columns: &[u32], rows: &mut [u32]) -> Result<(), Refusal>
    ensures { Transfers n (to_rows n) columns.now rows.old (told result) rows.new }
{
    decide(n, columns, rows)?;
    circuit::lay_by_rows(n as usize, columns, rows);
    Ok(())
}

// 3n numbers that stand row by row, column after column: the wire values in the order of their positions.
// Stays a call of its own beside `to_rows`: C calls both.
pub fn to_columns(n: u32, rows: &[u32], columns: &mut [u32]) -> Result<(), Refusal>
    ensures { Transfers n (to_columns n) rows.now columns.old (told result) columns.new }
{
    decide(n, rows, columns)?;
    circuit::wire_values(n as usize, rows, columns);
    Ok(())
}
