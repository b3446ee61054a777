// Lines of output: a label, then words and numbers with a comma before each.
use super::buffers;
use field::Refusal;

// Bytes as they are: a label at a line's start.
pub fn text(rt: HostRuntime, bytes: &[u8]) {
    streams::print(rt, bytes);
}

pub fn word(rt: HostRuntime, bytes: &[u8]) {
    text(rt, b",");
    text(rt, bytes);
}

// One of two words.
pub fn either(rt: HostRuntime, test: bool, yes: &[u8], no: &[u8]) {
    if test {
        word(rt, yes);
    } else {
        word(rt, no);
    }
}

pub fn number(rt: HostRuntime, x: u32) {
    text(rt, b",");
    streams::print_number(rt, u64::from(x));
}

pub fn numbers(rt: HostRuntime, xs: &[u32]) {
    for x in xs {
        number(rt, *x);
    }
}

// A line's start: a label and numbers.
pub fn heading(rt: HostRuntime, label: &[u8], xs: &[u32]) {
    text(rt, label);
    numbers(rt, xs);
}

// What a call answers: the number and the detail of its refusal; 0 and 0 where it is accepted.
pub fn answer<T>(rt: HostRuntime, r: &Result<T, Refusal>) {
    match r {
        Ok(_) => numbers(rt, &[0, 0]),
        Err(e) => numbers(rt, &[e.cause.number(), e.detail]),
    }
}

// What became of the start of a marked buffer: `kept`, `cleared`, or a digest of what was written.
pub fn left(rt: HostRuntime, xs: &[u32]) {
    if xs == buffers::part(&buffers::marked(), 0, xs.len()) {
        word(rt, b"kept");
    } else if xs.iter().all(|x| *x == 0) {
        word(rt, b"cleared");
    } else {
        number(rt, buffers::digest(xs));
    }
}
