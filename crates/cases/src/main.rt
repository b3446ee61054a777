// Makes the calls that files of cases describe, and writes what comes of each. The arguments are the names of the files.
//
// A file is made of blocks: the call's name; its numbers, `-` where it has none; a line for each buffer that is lent to it, in the order in which
// reason 6 counts them; and a line `.`. A buffer's line has its words; or it is
//
//     -         for an empty buffer,
//     ?k        for a buffer that the call may write, ?0 for an empty one: k words or bytes that may hold anything, which are filled with marks,
//     @NAME     for the bytes of a file beside it, which is a sheet.
//
// For a block is written the call and the words of its answer, as guppyspoon.h has them, and a line for each buffer that the call may write: `kept`
// where it is as it came, `zeros` where it has words and all are 0, its words else. The words behind it, which were not lent, are looked at too, and so are
// the buffers of words that a call only reads: what is changed there gets a line of its own, which no expected output has.
//
// A line that begins with # stands outside of the blocks. It says what a case is for, and is written out as it stands.
#![tactic(auto)]

ghost use Rattle.std.specs.Prelude.{◌≡◌, ◌≤◌, ◌<◌, length};

use blocks::lines;

mod polynomial;
mod sheets;
mod words;

// Room for a file of cases.
const FILE_ROOM: usize = 524288;

fn file_room() -> [u8; FILE_ROOM]
    ensures { 524288 ≡ length result }
{
    field::room()
}

// The call that a block names is made.
fn run_block(rt: HostRuntime, s: &[u8]) {
    match lines::line(s, 0) {
        b"deposit" => sheets::deposit(rt, s),
        b"join" => sheets::join(rt, s),
        b"read" => sheets::read(rt, s),
        b"polynomial" => polynomial::run(rt, s),
        _ => words::run(rt, s),
    }
}

// A line that begins with #, or a block, at the text's start; what is behind it.
fn run_first(rt: HostRuntime, s: &[u8]) -> &[u8]
    requires { 0 < length s.now }
    ensures { length result.now < length s.now }
{
    if s[0] == b'#' {
        let (remark, behind) = s.split_at(lines::next(s, 0));
        streams::print(rt, remark);
        return behind;
    }
    let (block, behind) = s.split_at(lines::stop(s));
    run_block(rt, block);
    if behind.is_empty() {
        return behind;
    }
    &behind[lines::next(behind, 0)..]
}

// Every block of a file.
fn run_all(rt: HostRuntime, mut s: &[u8]) {
    while !s.is_empty() {
        s = run_first(rt, s);
    }
}

// The file that argument i names; none where it cannot be read, which is told.
fn run_file(rt: HostRuntime, i: usize) -> Option<()> {
    let mut file = file_room();
    let n = streams::read_file(rt, i, &mut file)?;
    run_all(rt, &file[..n]);
    Some(())
}

fn main(rt: HostRuntime) {
    for i in 1..streams::arg_count(rt) {
        if run_file(rt, i).is_none() {
            return;
        }
    }
}
