// The blocks of the table: which of its words are the numbers of a lent buffer, in the order in which they are lent.
ghost use Rattle.std.specs.Prelude.{◌≡◌, ◌≤◌, ◌<◌};
ghost use Rattle.sheet.specs.Sheet.{sheet_rows};
ghost use Rattle.sheet.specs.Table.{line_words, table_lines, column_block, row_block, selectors_block, labels_block, witness_block, publics_block, challenges_block, blinders_block};

use super::table::{LINE_WORDS, table_place};

// Number k, of `count` numbers, is word start + step × (k % run) + leap × (k / run).
#[derive(Clone, Copy)]
pub struct Block {
    pub start: usize,
    pub run: usize,
    pub step: usize,
    pub leap: usize,
    pub count: usize,
}

// Column after column, of n lines: from a number to the next it goes a line down.
fn column_block(n: usize, line: usize, field: usize, count: usize) -> Block
    requires { (line < table_lines) × (field < line_words) }
    ensures { result ≡ column_block n line field count }
{
    Block {
        start: table_place(line, field),
        run: n,
        step: LINE_WORDS,
        leap: 1,
        count,
    }
}

// Row by row, of lines of `width` numbers: from a number to the next it goes a field on.
fn row_block(width: usize, line: usize, count: usize) -> Block
    requires { line < table_lines }
    ensures { result ≡ row_block width line count }
{
    Block {
        start: table_place(line, 0),
        run: width,
        step: 1,
        leap: LINE_WORDS,
        count,
    }
}

// Stay six: each names what is lent, and is one call of the two above with its constants.
pub fn selectors(n: usize) -> Block
    requires { n ≤ sheet_rows }
    ensures { result ≡ selectors_block n }
{
    column_block(n, 1, 0, circuit::selectors_length(n))
}

pub fn labels(n: usize) -> Block
    requires { n ≤ sheet_rows }
    ensures { result ≡ labels_block n }
{
    column_block(n, 1, super::LABEL_FIELD, circuit::labels_length(n))
}

pub fn witness(n: usize) -> Block
    requires { n ≤ sheet_rows }
    ensures { result ≡ witness_block n }
{
    row_block(3, n + 1, circuit::witness_length(n))
}

pub fn publics(n: usize, l: usize) -> Block
    requires { n ≤ sheet_rows }
    ensures { result ≡ publics_block n l }
{
    row_block(1, n + n + 1, l)
}

pub fn challenges(n: usize, l: usize) -> Block
    requires { (n ≤ sheet_rows) × (l ≤ n) }
    ensures { result ≡ challenges_block n l }
{
    row_block(
        super::CHALLENGE_COUNT,
        n + n + l + 1,
        super::CHALLENGE_COUNT,
    )
}

// The blinders: e lines of them, 0 or 1.
pub fn blinders(e: usize, n: usize, l: usize) -> Block
    requires { (e ≤ 1) × (n ≤ sheet_rows) × (l ≤ n) }
    ensures { result ≡ blinders_block e n l }
{
    row_block(
        circuit::BLINDER_COUNT,
        n + n + l + 2,
        circuit::BLINDER_COUNT * e,
    )
}
