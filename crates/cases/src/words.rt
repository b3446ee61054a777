// The calls that are lent words: a block's buffers are filled, lent and looked at. The line of buffer k is the block's line k + 1.
use blocks::buffers::{Room, hold, laid, lent, look, part};
use blocks::lines::line;
use blocks::words::MARK;
use blocks::{lines, print};

// The rooms of the buffers that are lent to be read are as they were.
fn hold_all(
    rt: HostRuntime,
    s: &[u8],
    a: &Room,
    b: &Room,
    c: &Room,
    d: &Room,
    e: &Room,
    f: &Room,
    g: &Room,
) {
    hold(rt, line(s, 2), a);
    hold(rt, line(s, 3), b);
    hold(rt, line(s, 4), c);
    hold(rt, line(s, 5), d);
    hold(rt, line(s, 6), e);
    hold(rt, line(s, 7), f);
    hold(rt, line(s, 8), g);
}

// The call that a block names, with the buffers that it may write: the others are filled, lent to be read, and must be as they were. A call has at most
// eight buffers, and the last of eight is written.
fn make(
    rt: HostRuntime,
    s: &[u8],
    x: &mut [u32],
    y: &mut [u32],
    z: &mut [u32],
    answer: &mut [u32],
) {
    let mut numbers = [0u32; 3];
    lines::numbers(line(s, 1), &mut numbers);
    let a = laid(line(s, 2));
    let b = laid(line(s, 3));
    let c = laid(line(s, 4));
    let d = laid(line(s, 5));
    let e = laid(line(s, 6));
    let f = laid(line(s, 7));
    let g = laid(line(s, 8));
    case_calls::make(
        line(s, 0),
        &numbers,
        part(&a, line(s, 2)),
        part(&b, line(s, 3)),
        part(&c, line(s, 4)),
        part(&d, line(s, 5)),
        part(&e, line(s, 6)),
        part(&f, line(s, 7)),
        part(&g, line(s, 8)),
        x,
        y,
        z,
        answer,
    );
    hold_all(rt, s, &a, &b, &c, &d, &e, &f, &g);
}

// The call of a block. It may write at most three buffers, which are the block's lines `?k`, and at most four words of answer: there is room for one more, so
// that one too many shows.
pub fn run(rt: HostRuntime, s: &[u8]) {
    let mut answer = [MARK; 5];
    let i = lines::marked(s, 0);
    let j = lines::marked(s, 1);
    let k = lines::marked(s, 2);
    let mut x = laid(i);
    let mut y = laid(j);
    let mut z = laid(k);
    make(
        rt,
        s,
        lent(&mut x, i),
        lent(&mut y, j),
        lent(&mut z, k),
        &mut answer,
    );
    print::answer(rt, line(s, 0), &answer);
    look(rt, i, false, &x);
    look(rt, j, false, &y);
    look(rt, k, false, &z);
}
