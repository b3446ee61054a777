// Joining two deposits (document 02): two sheets in, one sheet out.
//
// The public call is `join`. It reads each sheet into a table of its lines, and puts the lines of the joined sheet from the two tables.
#![tactic(auto)]

ghost use Rattle.field.specs.Reasons.{outcome};
ghost use Rattle.joining.specs.Joining.{Joins};

use field::Refusal;

mod lines;
mod reasons;
mod rows;

// The length of the buffer that the joined sheet is written into: as many bytes as a sheet may have.
pub const JOINED_ROOM: usize = 65536;

// The sheet of both circuits and what they are filled with, and zeros behind it; or why the call is turned down. How many bytes of the buffer are
// the joined sheet. It has no line of blinders, whether or not the two have one. All refusals are found before a lent byte is written.
pub fn join(one: &[u8], two: &[u8], joined: &mut [u8]) -> Result<usize, Refusal>
    ensures { Joins one.now two.now joined.old (outcome result) joined.new }
{
    let mut first: [u32; sheet::TABLE_LENGTH] = field::room();
    let mut second: [u32; sheet::TABLE_LENGTH] = field::room();
    let pair = reasons::decide(one, two, joined.len(), &mut first, &mut second)?;
    let end = lines::put_sheet(pair.p, pair.n, pair.l, pair.m, &first, &second, joined);
    joined[end..].fill(0);
    Ok(end)
}
