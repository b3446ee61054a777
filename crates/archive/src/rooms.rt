// How many numbers there are at most, on the greatest sheet, and bytes in the text of its deposit: the lengths of arrays with room for them.

ghost use Rattle.std.specs.Prelude.{◌≡◌, length};
ghost use Rattle.circuit.specs.Buffers.{work_length, prepared_length, transcript_length};
ghost use Rattle.sheet.specs.Sheet.{sheet_rows};

// The rows of the greatest sheet; and its public inputs, which are at most as many.
const ROWS: usize = sheet::ROWS as usize;

// Its selectors.
pub const SELECTORS: usize = circuit::SELECTOR_COUNT * ROWS;

// Its positions: three columns of rows.
pub const POSITIONS: usize = 3 * ROWS;

pub const PUBLICS: usize = ROWS;

// Its prepared circuit.
const PREPARED: usize = circuit::PREPARED_COUNT * ROWS;

// The scratch and the transcript, which may be blinded.
const SCRATCH: usize = 16 * ROWS + 64;

const TRANSCRIPT: usize = 7 * ROWS + 15;

// The text of any deposit.
pub const TEXT_LENGTH: usize = 20480;

// A scratch.
pub fn scratch_room() -> [u32; SCRATCH]
    ensures { work_length 1 sheet_rows ≡ length result }
{
    field::room()
}

// A prepared circuit.
pub fn prepared_room() -> [u32; PREPARED]
    ensures { prepared_length sheet_rows ≡ length result }
{
    field::room()
}

// A transcript.
pub fn transcript_room() -> [u32; TRANSCRIPT]
    ensures { transcript_length 1 sheet_rows ≡ length result }
{
    field::room()
}
