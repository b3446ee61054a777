// Why two sheets are not joined, if they are not. Only the tables are written, which are the caller's own.
ghost use Rattle.std.specs.Prelude.{◌≡◌, ◌∷◌, [], ◌≤◌, length};
ghost use Rattle.field.specs.Reasons.{told, outcome, answer_of, bad_lengths};
ghost use Rattle.sheet.specs.Sheet.{sheet_rows, new_reasons};
ghost use Rattle.sheet.specs.Table.{table_length};
ghost use Rattle.sheet.specs.Deciding.{Decides as SheetDecides};
ghost use Rattle.joining.specs.Joining.{pair_reasons};
ghost use Rattle.joining.specs.Deciding.{Decides};

use field::{Cause, Refusal};
use sheet::Sheet;

// What is known of two sheets that can be joined: p and n, which both have, and their numbers of public inputs.
#[derive(Clone, Copy, Debug, PartialEq, Eq)]
pub struct Pair {
    pub p: u32,
    pub n: usize,
    pub l: usize,
    pub m: usize,
}

// The reasons of a pair of sheets, one of n rows over p and one of k rows over q: 15 where they differ, 3 where the doubled n is too great.
fn decide_pair(p: u32, n: u32, q: u32, k: u32) -> Result<(), Refusal>
    requires { n ≤ sheet_rows }
    ensures { told result ≡ answer_of (pair_reasons p n q k) }
{
    if p != q || n != k {
        return field::refused(Cause::Unlike, 0);
    }
    if !field::is_rows(p, 2 * n) || sheet::ROWS < 2 * n {
        return field::refused(Cause::Rows, 0);
    }
    Ok(())
}

// The reasons of a sheet as a new one, `long` being the lengths of the call's buffers, and `due` those due: that of a retired prime comes straight
// after 2. The table is filled where none applies.
fn decide_new(s: &[u8], table: &mut [u32], long: &[usize], due: &[usize]) -> Result<Sheet, Refusal>
    requires { (length table.old ≡ table_length) × (length long.now ≡ length due.now) × (length due.now ≤ 16) }
    ensures { SheetDecides s.now (new_reasons s.now (bad_lengths long.now due.now ∷ [])) (outcome result) table.new }
{
    sheet::decide_prime(s)?;
    sheet::decide(s, table, long, due)
}

// The reasons of the first sheet as a new one, with that of the written buffer among them, those of the second, and those of the pair. `room` is
// the length of the written buffer. The tables are filled where none applies.
pub fn decide(
    one: &[u8],
    two: &[u8],
    room: usize,
    first: &mut [u32],
    second: &mut [u32],
) -> Result<Pair, Refusal>
    requires { (length first.old ≡ table_length) × (length second.old ≡ table_length) }
    ensures { Decides one.now two.now room (outcome result) first.new second.new }
{
    let long = [one.len(), two.len(), room];
    let due = [one.len(), two.len(), super::JOINED_ROOM];
    let a = decide_new(one, first, &long, &due)?;
    let b = decide_new(two, second, &long, &due)?;
    decide_pair(a.p, a.n, b.p, b.n)?;
    Ok(Pair {
        p: a.p,
        n: a.n as usize,
        l: a.l as usize,
        m: b.l as usize,
    })
}
