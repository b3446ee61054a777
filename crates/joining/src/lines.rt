// The lines of the joined sheet, put from the tables of the two sheets.
ghost use Rattle.std.specs.Prelude.{◌≡◌, ◌+◌, ◌*◌, ◌≤◌, ◌<◌, length};
ghost use Rattle.transform.specs.Parts.{laid};
ghost use Rattle.text.specs.Text.{line_of};
ghost use Rattle.text.specs.Puts.{field_bytes, Puts};
ghost use Rattle.sheet.specs.Sheet.{sheet_rows};
ghost use Rattle.sheet.specs.Table.{line_words, table_lines, table_length};
ghost use Rattle.joining.specs.Lines.{Raisable, RowLines, Tables, number_in, line_in, row_in, public_in, table_text};

use super::rows::{Source, source_of};

// Number j of line i of a table: as it is before the field of the labels, raised from there on.
fn number(table: &[u32], i: usize, j: usize, raise: u32) -> u32
    requires { Raisable raise table.now i (j + 1) }
    ensures { result ≡ number_in raise table.now i j }
{
    let word = table[sheet::table_place(i, j)];
    if j < sheet::LABEL_FIELD {
        word
    } else {
        raise + word
    }
}

// The numbers of line i of a table, as many as `line` has, the labels raised.
fn copy_line(table: &[u32], i: usize, raise: u32, line: &mut [u32])
    requires { Raisable raise table.now i (length line.old) }
    ensures { line.new ≡ line_in raise table.now i (length line.old) }
{
    for j in 0..line.len() {
        line[j] = number(table, i, j, raise);
    }
}

// Line i of a table, which has k numbers, the labels raised. A line that ends before the labels has none.
fn put_words(table: &[u32], i: usize, k: usize, raise: u32, out: &mut [u8], at: usize) -> usize
    requires { Raisable raise table.now i k × (0 < k) × (at + field_bytes * k ≤ length out.old) }
    ensures { Puts at (line_of (line_in raise table.now i k)) out.old result out.new }
{
    let mut line: [u32; sheet::LINE_WORDS] = field::room();
    copy_line(table, i, raise, &mut line[..k]);
    text::put_numbers(&line[..k], out, at)
}

// The line of row i, which has k numbers: that of the row it comes from, where row 0 of either sheet stands on line `start`. The labels of the second
// sheet are raised by 3n.
fn put_row(
    n: usize,
    l: usize,
    m: usize,
    start: usize,
    k: usize,
    i: usize,
    first: &[u32],
    second: &[u32],
    out: &mut [u8],
    at: usize,
) -> usize
    requires { RowLines n l m start k first.now second.now × (i < 2 * n) × (at + field_bytes * k ≤ length out.old) }
    ensures { Puts at (line_of (row_in n l m start k first.now second.now i)) out.old result out.new }
{
    match source_of(n, l, m, i) {
        Source::First(row) => put_words(first, start + row, k, 0, out, at),
        Source::Second(row) => put_words(second, start + row, k, 3 * (n as u32), out, at),
    }
}

// The lines of all rows: gate lines, or wire values, which end before the field of the labels.
fn put_rows(
    n: usize,
    l: usize,
    m: usize,
    start: usize,
    k: usize,
    first: &[u32],
    second: &[u32],
    out: &mut [u8],
    at: usize,
) -> usize
    requires { RowLines n l m start k first.now second.now × (at + field_bytes * k * (2 * n) ≤ length out.old) }
    ensures { Puts at (laid (λ i. line_of (row_in n l m start k first.now second.now i)) (2 * n)) out.old result out.new }
{
    let mut next = at;
    for i in 0..2 * n {
        next = put_row(n, l, m, start, k, i, first, second, out, next);
    }
    next
}

// The l public inputs of a sheet of n rows.
fn put_publics(table: &[u32], n: usize, l: usize, out: &mut [u8], at: usize) -> usize
    requires { (n ≤ sheet_rows) × (l ≤ n) × (length table.now ≡ table_length) × (at + field_bytes * l ≤ length out.old) }
    ensures { Puts at (laid (λ i. line_of (public_in n table.now i)) l) out.old result out.new }
{
    let mut next = at;
    for i in 0..l {
        next = put_words(table, n + n + 1 + i, 1, 0, out, next);
    }
    next
}

// The joined sheet, at the buffer's start.
pub fn put_sheet(
    p: u32,
    n: usize,
    l: usize,
    m: usize,
    first: &[u32],
    second: &[u32],
    out: &mut [u8],
) -> usize
    requires { Tables n l m first.now second.now × (length out.old ≡ 65536) }
    ensures { Puts 0 (table_text p n l m first.now second.now) out.old result out.new }
{
    let line = [p, (2 * n) as u32, (l + m) as u32];
    let gates = text::put_numbers(&line, out, 0);
    let witness = put_rows(n, l, m, 1, sheet::GATE_FIELDS, first, second, out, gates);
    let publics = put_rows(n, l, m, n + 1, 3, first, second, out, witness);
    let others = put_publics(first, n, l, out, publics);
    let challenges = put_publics(second, n, m, out, others);
    let last = n + n + l + 1;
    put_words(first, last, sheet::CHALLENGE_COUNT, 0, out, challenges)
}
