// Why a sheet is turned down, if it is. Only the table is written, which is the reader's own.
ghost use Rattle.std.specs.Prelude.{◌≡◌, ◌∷◌, [], ◌≤◌, length, IfOk};
ghost use Rattle.field.specs.Reasons.{told, outcome, answer_of, bad_lengths};
ghost use Rattle.sheet.specs.Sheet.{sheet_due, behind_reasons, read_reasons};
ghost use Rattle.sheet.specs.Table.{table_length, Tabled, Begins};
ghost use Rattle.sheet.specs.Deciding.{Decides};

use super::first::First;
use super::{Sheet, first, lines, numbers};
use field::Refusal;

// The lengths due of `read`: of the sheet, which has whatever length it has, and of the five lent buffers.
pub fn lengths_due(bytes: usize) -> [usize; 6]
    ensures { result ≡ sheet_due bytes }
{
    let rows = super::ROWS as usize;
    [
        bytes,
        circuit::selectors_length(rows),
        circuit::labels_length(rows),
        circuit::witness_length(rows),
        rows,
        super::DRAWN_COUNT,
    ]
}

// The reasons behind those of the first line, `long` being the lengths of the call's buffers, and `due` those due. The table is filled where none applies; whether there
// is a line of blinders.
fn decide_behind(
    s: &[u8],
    first: First,
    table: &mut [u32],
    long: &[usize],
    due: &[usize],
) -> Result<bool, Refusal>
    requires { Begins s.now first.n first.l 1 first.next table.old × (length long.now ≡ length due.now) × (length due.now ≤ 16) }
    ensures answer_value { told result ≡ answer_of (behind_reasons s.now first.p first.n first.l (bad_lengths long.now due.now ∷ [])) }
    ensures tabled { IfOk result (λ blinded. Tabled s.now first.n first.l blinded table.new) }
{
    let n = first.n as usize;
    let l = first.l as usize;
    let blinded = lines::decide_lines(s, n, l, first.next, table)?;
    field::decide_lengths(long, due)?;
    numbers::decide_numbers(super::blinder_lines(blinded), first.p, n, l, table)?;
    Ok(blinded)
}

// All reasons of a call that reads a sheet, in order, `long` being the lengths of the call's buffers, and `due` those due. The table is filled where none applies.
pub fn decide(s: &[u8], table: &mut [u32], long: &[usize], due: &[usize]) -> Result<Sheet, Refusal>
    requires { (length table.old ≡ table_length) × (length long.now ≡ length due.now) × (length due.now ≤ 16) }
    ensures { Decides s.now (read_reasons s.now (bad_lengths long.now due.now ∷ [])) (outcome result) table.new }
{
    let first = first::decide_first(s)?;
    let blinded = decide_behind(s, first, table, long, due)?;
    Ok(Sheet {
        p: first.p,
        n: first.n,
        l: first.l,
        blinded,
    })
}
