// The lines behind the first one, read into the table.
ghost use Rattle.std.specs.Prelude.{◌≡◌, suc, ◌≤◌, ◌<◌, length, IfOk, MatchResult};
ghost use Rattle.sheet.specs.Sheet.{sheet_rows, fields_due, plain_lines, line_at, bad_from, line_reasons};
ghost use Rattle.sheet.specs.Table.{line_words, table_lines, Held, Tabled, Begins};
ghost use Rattle.field.specs.Reasons.{told, answer_of};

use field::{Cause, Refusal};

// How many numbers line i has.
#[tactic(auto, unfolding(crate::specs::Sheet::fields_due))]
fn fields_due(n: usize, l: usize, i: usize) -> usize
    requires { (n ≤ sheet_rows) × (l ≤ sheet_rows) }
    ensures { (result ≡ fields_due n l i) × (0 < result) × (result ≤ line_words) }
{
    if i == 0 {
        return 3;
    }
    if i <= n {
        return super::GATE_FIELDS;
    }
    if i <= n + n {
        return 3;
    }
    if i <= n + n + l {
        return 1;
    }
    if i <= n + n + l + 1 {
        return super::CHALLENGE_COUNT;
    }
    circuit::BLINDER_COUNT
}

// Reads line after line from line `first` on, which starts at `start`, up to line `due`: where that one starts, or the first line that is missing or out of form.
fn read_lines(
    s: &[u8],
    n: usize,
    l: usize,
    first: usize,
    due: usize,
    start: usize,
    table: &mut [u32],
) -> Result<usize, usize>
    requires { Begins s.now n l first start table.old × (first ≤ due) × (due ≤ table_lines) }
    ensures { MatchResult result (λ next. (bad_from s.now n l first due ≡ due) × (next ≡ line_at s.now n l due) × (next ≤ length s.now) × Held s.now n l due table.new) (λ bad. (bad ≡ bad_from s.now n l first due) × (bad < due)) }
{
    let mut at = start;
    for i in first..due {
        let k = fields_due(n, l, i);
        let from = super::table_place(i, 0);
        let to = super::table_place(i, k);
        let Some(next) = text::line(s, at, &mut table[from..to]) else {
            return Err(i);
        };
        at = next;
    }
    Ok(at)
}

// Line i is missing, extra or out of form. People count lines from 1.
fn out_of_form(i: usize) -> Result<bool, Refusal>
    requires { i ≤ table_lines }
    ensures { result ≡ Err (record { cause = Cause.Line; detail = suc i }) }
{
    field::refused(Cause::Line, (i + 1) as u32)
}

// The reason of the lines, where those up to the challenges are read, or whether there is a line of blinders: it is what stands behind these, from `start` on.
fn decide_rest(
    s: &[u8],
    n: usize,
    l: usize,
    start: usize,
    table: &mut [u32],
) -> Result<bool, Refusal>
    requires { Begins s.now n l (plain_lines n l) start table.old × (bad_from s.now n l 1 (plain_lines n l) ≡ plain_lines n l) }
    ensures answer_value { told result ≡ answer_of (line_reasons s.now n l) }
    ensures tabled { IfOk result (λ blinded. Tabled s.now n l blinded table.new) }
{
    let blinded = start < s.len();
    let first = n + n + l + 2;
    let due = first + super::blinder_lines(blinded);
    match read_lines(s, n, l, first, due, start, table) {
        Err(bad) => out_of_form(bad),
        Ok(next) if next < s.len() => out_of_form(due),
        Ok(_) => Ok(blinded),
    }
}

// Reads all lines behind the first one: whether there is a line of blinders, or the reason of a line that is missing, extra or out of form.
pub fn decide_lines(
    s: &[u8],
    n: usize,
    l: usize,
    start: usize,
    table: &mut [u32],
) -> Result<bool, Refusal>
    requires { Begins s.now n l 1 start table.old }
    ensures answer_value { told result ≡ answer_of (line_reasons s.now n l) }
    ensures tabled { IfOk result (λ blinded. Tabled s.now n l blinded table.new) }
{
    let due = n + n + l + 2;
    match read_lines(s, n, l, 1, due, start, table) {
        Err(bad) => out_of_form(bad),
        Ok(next) => decide_rest(s, n, l, next, table),
    }
}
