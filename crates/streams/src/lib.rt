// What the programs read, and what they print. A read or a write that fails is told on standard error, with the system's word for it, by the
// function that meets it: its caller has only to stop.
#![tactic(auto)]

ghost use Rattle.io.specs.Counts.{IsPrefixLen};
ghost use Rattle.streams.specs.Got.{bytes_of};

use std::env::{Env, FillError};
use std::fmt;
use std::fmt::Write;
use std::fs::File;
use std::io::{Error, Print, Read};

// The system's numbers of three errors: no such argument, a name that is too long, and one that is no text.
const EINVAL: i32 = 22;

const ENAMETOOLONG: i32 = 36;

const EILSEQ: i32 = 84;

// Writes the system's word for an error to standard error, without its number, which std writes behind it.
#[derive(Drop)]
struct Word {
    rt: HostRuntime,
    is_written: bool,
}

impl fmt::Write for Word {
    fn write_str(&mut self, text: &str) -> fmt::Result {
        if self.is_written {
            return Ok(());
        }
        match text.split_once(" (os error ") {
            Some((word, _)) => {
                self.is_written = true;
                tell(self.rt, word.as_bytes());
            }
            None => tell(self.rt, text.as_bytes()),
        }
        Ok(())
    }
}

// Writes a line to standard error: what failed, a colon and the system's word for it.
fn fail(rt: HostRuntime, what: &[u8], error: Error) {
    tell(rt, what);
    tell(rt, b": ");
    let mut word = Word {
        rt,
        is_written: false,
    };
    let _ = write!(word, "{error}");
    tell(rt, b"\n");
}

// Reads once, to the start of `out`, and answers how many bytes: 0 where the input ends, none where it fails, which is told under this name.
fn read_some<R: Read>(rt: HostRuntime, from: &mut R, name: &[u8], out: &mut [u8]) -> Option<usize>
    ensures { IsPrefixLen (bytes_of result) out.new }
{
    match from.read(out) {
        Ok(n) => Some(n),
        Err(error) => {
            fail(rt, name, error);
            None
        }
    }
}

// Reads till the input ends or there is no more room, and answers how many bytes.
fn read_all<R: Read>(rt: HostRuntime, from: &mut R, name: &[u8], out: &mut [u8]) -> Option<usize>
    ensures { IsPrefixLen (bytes_of result) out.new }
{
    let mut done = 0;
    // Stays a while: a `for` would be no plainer, as a read gives as many bytes as it likes: no range says where the next one starts.
    while done < out.len() {
        let more = read_some(rt, from, name, &mut out[done..])?;
        if more == 0 {
            break;
        }
        done += more;
    }
    Some(done)
}

// Reads standard input: how many bytes, or none where that failed, which is told.
pub fn read_input(rt: HostRuntime, out: &mut [u8]) -> Option<usize>
    ensures { IsPrefixLen (bytes_of result) out.new }
{
    let mut input = rt.stdin();
    read_all(rt, &mut input, b"standard input", out)
}

// The file of this name, opened to be read.
fn open(rt: HostRuntime, name: &[u8]) -> Result<File, Error> {
    match std::str::from_utf8(name) {
        Ok(path) => File::open(&rt, path),
        Err(_) => Err(Error::from_raw_os_error(EILSEQ)),
    }
}

// Reads the file of this name, likewise.
pub fn read_named(rt: HostRuntime, name: &[u8], out: &mut [u8]) -> Option<usize>
    ensures { IsPrefixLen (bytes_of result) out.new }
{
    match open(rt, name) {
        Ok(mut file) => read_all(rt, &mut file, name, out),
        Err(error) => {
            fail(rt, name, error);
            None
        }
    }
}

// Reads the file that argument i names, likewise.
pub fn read_file(rt: HostRuntime, i: usize, out: &mut [u8]) -> Option<usize>
    ensures { IsPrefixLen (bytes_of result) out.new }
{
    let mut name = io::buffer();
    match rt.arg(i, &mut name) {
        Ok(n) => read_named(rt, &name[..n], out),
        Err(reason) => {
            let number = match reason {
                FillError::NotPresent => EINVAL,
                FillError::TooLong => ENAMETOOLONG,
            };
            fail(rt, b"the name of a file", Error::from_raw_os_error(number));
            None
        }
    }
}

// None where writing to standard output failed, which is told.
fn written(rt: HostRuntime, done: Result<(), Error>) -> Option<()> {
    match done {
        Ok(()) => Some(()),
        Err(error) => {
            fail(rt, b"standard output", error);
            None
        }
    }
}

// Writes all of a text to standard output; none where that failed, which is told.
pub fn print(rt: HostRuntime, text: &[u8]) -> Option<()> {
    written(rt, rt.write_all(text))
}

// Writes a number to standard output, likewise.
pub fn print_number(rt: HostRuntime, x: u64) -> Option<()> {
    written(rt, rt.print(x))
}

// Writes a line to standard error.
pub fn tell(rt: HostRuntime, line: &[u8]) {
    let _ = Print::write_all(&rt.stderr(), line);
}

// How many arguments there are, the program's name among them.
pub fn arg_count(rt: HostRuntime) -> usize {
    let mut start = [0u8; 1];
    for i in 0..usize::MAX {
        if let Err(FillError::NotPresent) = rt.arg(i, &mut start) {
            return i;
        }
    }
    usize::MAX
}

// Puts argument i at the start of `out`: how long it is, or 0 where there is none or it is longer than `out`.
pub fn arg(rt: HostRuntime, i: usize, out: &mut [u8]) -> usize
    ensures { IsPrefixLen result out.new }
{
    rt.arg(i, out).unwrap_or(0)
}
