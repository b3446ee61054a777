// Buffers of bytes: sheets, which are files beside the cases, and texts that a call writes. Each stands at the start of a room, as a buffer of words does.
ghost use Rattle.std.specs.Prelude.{◌≡◌, length};

use super::buffers;
use super::words::{first, first_mut};
use streams::print;

// The bytes of a room: more than the longest buffer has, which is that of a joined sheet, of 65,536.
const ROOM: usize = 73728;

// The byte that stands for anything, and behind a buffer. No text has it.
const MARK: u8 = 255;

pub type Room = [u8; ROOM];

// Stays beside `field::room`: it is filled with marks.
fn room() -> Room
    ensures { 73728 ≡ length result }
{
    [MARK; ROOM]
}

// The bytes of a line, at the start of a room of marks; how many are lent. A file that cannot be read gets a line that no expected
// output has.
fn lay(rt: HostRuntime, line: &[u8], out: &mut [u8]) -> usize {
    let [b'@', name @ ..] = line else {
        return buffers::marks(line);
    };
    match streams::read_named(rt, name, out) {
        Some(n) => n,
        None => {
            print(rt, b"a file cannot be read\n");
            0
        }
    }
}

// How many bytes a line lends.
fn count(rt: HostRuntime, line: &[u8]) -> usize {
    let mut bytes = room();
    lay(rt, line, &mut bytes)
}

// The room of a line's buffer.
pub fn laid(rt: HostRuntime, line: &[u8]) -> Room
    ensures { 73728 ≡ length result }
{
    let mut bytes = room();
    lay(rt, line, &mut bytes);
    bytes
}

// What is lent of a room to be read: the bytes of its line.
pub fn part<'a>(rt: HostRuntime, bytes: &'a Room, line: &[u8]) -> &'a [u8] {
    first(bytes, count(rt, line))
}

// What is lent of a room to be written.
pub fn lent<'a>(rt: HostRuntime, xs: &'a mut [u8], line: &[u8]) -> &'a mut [u8] {
    first_mut(xs, count(rt, line))
}

// All bytes are this one.
fn all(xs: &[u8], byte: u8) -> bool {
    xs.iter().all(|x| *x == byte)
}

// What became of a buffer that was marks, and of the room behind it: `kept`, or the text that it holds, with zeros behind it.
pub fn look(rt: HostRuntime, line: &[u8], bytes: &Room) {
    let (lent, behind) = bytes.split_at(buffers::marks(line).min(ROOM));
    let k = lent.iter().position(|x| *x == 0).unwrap_or(lent.len());
    let (text, zeros) = lent.split_at(k);
    if all(lent, MARK) {
        print(rt, b"kept\n");
    } else if all(zeros, 0) {
        print(rt, text);
        print(rt, b"zeros behind\n");
    } else {
        print(rt, b"neither a text nor zeros behind it\n");
    }
    if !all(behind, MARK) {
        print(rt, b"bytes behind a buffer are changed\n");
    }
}
