// The calls that are lent sheets. An answer has room for a word more than the call writes, so that one too many shows.
use blocks::bytes::{laid, lent, part};
use blocks::lines::line;
use blocks::words::MARK;
use blocks::{buffers, bytes, print};

// The call `deposit` of a block.
pub fn deposit(rt: HostRuntime, s: &[u8]) {
    let mut answer = [MARK; 4];
    let sheet = laid(rt, line(s, 2));
    let mut text = laid(rt, line(s, 3));
    exports::guppyspoon_deposit(
        part(rt, &sheet, line(s, 2)),
        lent(rt, &mut text, line(s, 3)),
        &mut answer,
    );
    print::answer(rt, b"deposit", &answer);
    bytes::look(rt, line(s, 3), &text);
}

// The call `join` of a block.
pub fn join(rt: HostRuntime, s: &[u8]) {
    let mut answer = [MARK; 4];
    let one = laid(rt, line(s, 2));
    let two = laid(rt, line(s, 3));
    let mut joined = laid(rt, line(s, 4));
    exports::guppyspoon_join(
        part(rt, &one, line(s, 2)),
        part(rt, &two, line(s, 3)),
        lent(rt, &mut joined, line(s, 4)),
        &mut answer,
    );
    print::answer(rt, b"join", &answer);
    bytes::look(rt, line(s, 4), &joined);
}

// The call `read` of a block.
pub fn read(rt: HostRuntime, s: &[u8]) {
    let mut answer = [MARK; 7];
    let sheet = laid(rt, line(s, 2));
    let mut b = buffers::laid(line(s, 3));
    let mut c = buffers::laid(line(s, 4));
    let mut d = buffers::laid(line(s, 5));
    let mut e = buffers::laid(line(s, 6));
    let mut f = buffers::laid(line(s, 7));
    exports::guppyspoon_read(
        part(rt, &sheet, line(s, 2)),
        buffers::lent(&mut b, line(s, 3)),
        buffers::lent(&mut c, line(s, 4)),
        buffers::lent(&mut d, line(s, 5)),
        buffers::lent(&mut e, line(s, 6)),
        buffers::lent(&mut f, line(s, 7)),
        &mut answer,
    );
    print::answer(rt, b"read", &answer);
    buffers::look(rt, line(s, 3), true, &b);
    buffers::look(rt, line(s, 4), true, &c);
    buffers::look(rt, line(s, 5), true, &d);
    buffers::look(rt, line(s, 6), true, &e);
    buffers::look(rt, line(s, 7), true, &f);
}
