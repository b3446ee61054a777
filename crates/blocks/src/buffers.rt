// Buffers of words: filled from a block's line before the call, and looked at behind it.
//
// A buffer stands at the start of a room, which has more words than are lent. Marks, numbers that no result has, stand in the words that may hold
// anything and behind the buffer.
ghost use Rattle.std.specs.Prelude.{◌≡◌, length, take};

use super::words::{MARK, first, first_mut, progression};
use super::{lines, print};
use streams::print;

// The words of a room: more than the longest buffer of a case has, which is the working area of 32,768 for 2,048 rows, one power of two too many.
const ROOM: usize = 36864;

pub type Room = [u32; ROOM];

// The k of a line `?k`; 0 for any other.
pub fn marks(line: &[u8]) -> usize {
    match line {
        [b'?', k @ ..] => lines::number(k) as usize,
        _ => 0,
    }
}

// The words of a line, at the start of a room of marks; how many are lent.
fn lay(line: &[u8], out: &mut [u32]) -> usize {
    progression(out, MARK, 1);
    match line {
        [b'-' | b'@', ..] => 0,
        [b'?', ..] => marks(line),
        _ => lines::numbers(line, out),
    }
}

// How many words a line lends.
fn count(line: &[u8]) -> usize {
    let mut words: Room = field::room();
    lay(line, &mut words)
}

// The room of a line's buffer.
pub fn laid(line: &[u8]) -> Room
    ensures { 36864 ≡ length result }
{
    let mut words: Room = field::room();
    lay(line, &mut words);
    words
}

// What is lent of a room to be read: the words of its line.
pub fn part<'a>(words: &'a Room, line: &[u8]) -> &'a [u32] {
    first(words, count(line))
}

// What is lent of a room to be written.
pub fn lent<'a>(xs: &'a mut [u32], line: &[u8]) -> &'a mut [u32] {
    first_mut(xs, count(line))
}

// The words up to the last that is not 0.
fn used(xs: &[u32]) -> &[u32]
    ensures { result.now ≡ take (length result.now) xs.now }
{
    let k = xs.iter().rposition(|x| *x != 0).map_or(0, |k| k + 1);
    first(xs, k)
}

// The line of a buffer that a call may write: `kept` where it is as it was, `zeros` where all its words are 0, its words else.
fn outcome(rt: HostRuntime, xs: &[u32], was: &[u32]) {
    if xs == was {
        print(rt, b"kept\n");
    } else if used(xs).is_empty() {
        print(rt, b"zeros\n");
    } else {
        print::numbers(rt, xs);
        print(rt, b"\n");
    }
}

// The same of a buffer with room for more than a sheet has: zeros behind its numbers are not written out.
fn outcome_filled(rt: HostRuntime, xs: &[u32], was: &[u32]) {
    let numbers = used(xs);
    if numbers.is_empty() || numbers.len() == xs.len() {
        outcome(rt, xs, was);
        return;
    }
    print::numbers(rt, numbers);
    print(rt, b",zeros behind\n");
}

// What became of the buffer of a line that is there, and of the words behind it, which were not lent.
// Stays with a flag, `filled`: whether the call fills more than a sheet has is told by the line of the case.
pub fn look(rt: HostRuntime, line: &[u8], filled: bool, words: &Room) {
    if line.is_empty() {
        return;
    }
    let mut room: Room = field::room();
    let k = lay(line, &mut room).min(ROOM);
    let (xs, behind) = words.split_at(k);
    let (was, behind_was) = room.split_at(k);
    if filled {
        outcome_filled(rt, xs, was);
    } else {
        outcome(rt, xs, was);
    }
    if behind != behind_was {
        print(rt, b"words behind a buffer are changed\n");
    }
}

// A buffer that a call only reads is as it was, and so is the room behind it.
pub fn hold(rt: HostRuntime, line: &[u8], words: &Room) {
    if *words != laid(line) {
        print(rt, b"a buffer that is only read is changed\n");
    }
}
