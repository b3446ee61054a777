// The table of a sheet's numbers, line after line: LINE_WORDS words for each line, the first of which are its numbers.
// Stays one array with places: its definitions (`table_place`) count so.
ghost use Rattle.std.specs.Prelude.{◌≡◌, ◌≤◌, ◌<◌};
ghost use Rattle.sheet.specs.Table.{line_words, table_lines, table_place};

// The words of a line: at least as many as any line has numbers.
pub const LINE_WORDS: usize = 9;

// The lines: at least as many as ROWS rows and as many public inputs have.
const TABLE_LINES: usize = 771;

// The words of the table.
pub const TABLE_LENGTH: usize = LINE_WORDS * TABLE_LINES;

// Where field j of line i stands. A line of j numbers ends there.
pub fn table_place(i: usize, j: usize) -> usize
    requires { (i < table_lines) × (j ≤ line_words) }
    ensures { result ≡ table_place i j }
{
    LINE_WORDS * i + j
}
