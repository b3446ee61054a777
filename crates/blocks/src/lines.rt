// The lines of a text. Byte 10 ends a line.
ghost use Rattle.std.specs.Prelude.{◌<◌, length};
ghost use Rattle.io.specs.Counts.{IsPrefixLen};

// Where the line behind the one with place `at` starts: behind its newline, or at the text's end.
pub fn next(s: &[u8], at: usize) -> usize
    requires { at < length s.now }
    ensures { (at < result) × IsPrefixLen result s.now }
{
    match s[at..].iter().position(|b| *b == b'\n') {
        Some(k) => at + k + 1,
        None => s.len(),
    }
}

// Line k of a text, counted from 0, without its newline; empty where there is none.
pub fn line(s: &[u8], k: usize) -> &[u8] {
    s.split(|b| *b == b'\n').nth(k).unwrap_or(&[])
}

// The line of the block's buffer that is the first to be written, the second, and so on, i counted from 0: of the lines of its eight buffers, 2 to 9, it
// begins with `?`. Line 10, behind the block, where there is none.
pub fn marked(s: &[u8], i: usize) -> &[u8] {
    let mut lines = s
        .split(|b| *b == b'\n')
        .skip(2)
        .take(8)
        .filter(|line| line.first() == Some(&b'?'));
    lines.nth(i).unwrap_or(line(s, 10))
}

// Where the line starts that ends a block, which is a point; the text's end where there is none.
pub fn stop(s: &[u8]) -> usize
    ensures { IsPrefixLen result s.now }
{
    if s.first() == Some(&b'.') {
        return 0;
    }
    s.windows(2)
        .position(|pair| matches!(pair, b"\n."))
        .map_or(s.len(), |k| k + 1)
}

// v with a digit behind it; 0 behind a comma. What is neither makes another number, and so a line that differs.
fn pushed(v: u32, digit: u8) -> u32 {
    if digit == b',' {
        return 0;
    }
    let w = (v as u64 * 10 + digit as u64 + 4294967248) % 4294967296;
    w as u32
}

// The number of a line that has one.
pub fn number(line: &[u8]) -> u32 {
    line.iter().fold(0, |v, digit| pushed(v, *digit))
}

// The numbers of a line, with a comma between them, as many as there is room for, at the start of `out`; how many there are. An empty line has none,
// and a line that begins with a comma leaves the first word as it is.
pub fn numbers(line: &[u8], out: &mut [u32]) -> usize {
    if line.is_empty() {
        return 0;
    }
    let left = usize::from(line.first() == Some(&b','));
    for (x, field) in out.iter_mut().zip(line.split(|b| *b == b',')).skip(left) {
        *x = number(field);
    }
    line.split(|b| *b == b',').count()
}
