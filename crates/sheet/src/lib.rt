// Reading a sheet (document 01, "The sheet"): why it is turned down, or p, n, l and its numbers laid out as they are lent.
//
// The public call is `read`. The layers above that take new sheets begin with `decide_prime`; one that reads a sheet for a call of its own goes on with `decide`. Lines
// count from 0 in the code, as in the definitions.
#![tactic(auto)]

ghost use Rattle.std.specs.Prelude.{◌≡◌, cond, length};
ghost use Rattle.field.specs.Reasons.{outcome};
ghost use Rattle.sheet.specs.Promises.{Reads};

use field::Refusal;

mod blocks;
mod first;
mod laying;
mod lines;
mod numbers;
mod reasons;
mod table;

pub use first::decide_prime;
pub use reasons::decide;
pub use table::{LINE_WORDS, TABLE_LENGTH, table_place};

// What `read` says of a sheet: p, n and l, and whether it has a line of blinders.
#[derive(Clone, Copy, Debug, PartialEq, Eq)]
pub struct Sheet {
    pub p: u32,
    pub n: u32,
    pub l: u32,
    pub blinded: bool,
}

// The greatest number of rows on a sheet.
pub const ROWS: u32 = 256;

// The challenges on a sheet.
pub const CHALLENGE_COUNT: usize = 4;

// The length of the buffer that both are laid in.
pub const DRAWN_COUNT: usize = CHALLENGE_COUNT + circuit::BLINDER_COUNT;

// The fields before the labels on a gate line: its selectors.
pub const LABEL_FIELD: usize = circuit::SELECTOR_COUNT;

// The fields of a gate line: those, and three labels.
pub const GATE_FIELDS: usize = LABEL_FIELD + 3;

// How many lines of blinders a sheet has: 1 where it has one, else 0.
pub fn blinder_lines(blinded: bool) -> usize
    ensures { result ≡ cond blinded 1 0 }
{
    usize::from(blinded)
}

// One byte more than a sheet may have.
pub const SHEET_ROOM: usize = 65537;

// Room for a program that reads a sheet: input that fills it is too long, however much follows.
pub fn sheet_room() -> [u8; SHEET_ROOM]
    ensures { 65537 ≡ length result }
{
    field::room()
}

// The numbers of a sheet, laid out for ROWS rows, the blinders behind the challenges. All refusals are found before a lent word is written.
pub fn read(
    sheet: &[u8],
    selectors: &mut [u32],
    labels: &mut [u32],
    witness: &mut [u32],
    publics: &mut [u32],
    challenges: &mut [u32],
) -> Result<Sheet, Refusal>
    ensures { Reads sheet.now selectors.old labels.old witness.old publics.old challenges.old (outcome result) selectors.new labels.new witness.new publics.new challenges.new }
{
    let mut table: [u32; TABLE_LENGTH] = field::room();
    let long = [
        sheet.len(),
        selectors.len(),
        labels.len(),
        witness.len(),
        publics.len(),
        challenges.len(),
    ];
    let due = reasons::lengths_due(sheet.len());
    let found = reasons::decide(sheet, &mut table, &long, &due)?;
    laying::lay_out(
        &table,
        blinder_lines(found.blinded),
        found.n as usize,
        found.l as usize,
        selectors,
        labels,
        witness,
        publics,
        challenges,
    );
    Ok(found)
}
