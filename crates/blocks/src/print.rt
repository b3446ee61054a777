// Numbers in the output.
use super::words::MARK;
use streams::{print, print_number};

// Words, with a comma between them.
pub fn numbers(rt: HostRuntime, xs: &[u32]) {
    for (i, x) in xs.iter().enumerate() {
        if 0 < i {
            print(rt, b",");
        }
        print_number(rt, u64::from(*x));
    }
}

// The line of an answer: the call, and the words that it has written over marks. A name that is none of a call's has none.
pub fn answer(rt: HostRuntime, name: &[u8], words: &[u32]) {
    print(rt, name);
    for x in words {
        if *x == MARK {
            break;
        }
        print(rt, b",");
        print_number(rt, u64::from(*x));
    }
    print(rt, b"\n");
}
