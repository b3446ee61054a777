// The call `polynomial`, which hands back a part of one of its buffers. The words of the two buffers are distinct in a case, so that the part's first
// word tells where it starts.
use blocks::buffers::{laid, part};
use blocks::lines::line;
use blocks::{lines, print};
use streams::{print, print_number};

// Where the part starts, counted through the prepared circuit and then the transcript, how many words it has, and its words.
fn tell(rt: HostRuntime, prepared: &[u32], transcript: &[u32], part: &[u32]) {
    let Some(first) = part.first() else {
        print(rt, b"polynomial,empty\n");
        return;
    };
    let mut words = prepared.iter().chain(transcript);
    let start = words
        .position(|x| x == first)
        .unwrap_or(prepared.len() + transcript.len());
    print(rt, b"polynomial,");
    print_number(rt, start as u64);
    print(rt, b",");
    print_number(rt, part.len() as u64);
    print(rt, b"\n");
    print::numbers(rt, part);
    print(rt, b"\n");
}

// The call of a block: n and the polynomial's number; the prepared circuit, the transcript.
pub fn run(rt: HostRuntime, s: &[u8]) {
    let mut numbers = [0u32; 2];
    lines::numbers(line(s, 1), &mut numbers);
    let a = laid(line(s, 2));
    let b = laid(line(s, 3));
    let prepared = part(&a, line(s, 2));
    let transcript = part(&b, line(s, 3));
    let found = circuit::polynomial(numbers[0], numbers[1], prepared, transcript);
    tell(rt, prepared, transcript, found);
}
