// Buffers to lend: made, filled, and looked at afterwards.
ghost use Rattle.std.specs.Prelude.{◌≡◌, ◌≤◌, length};

use blocks::words::{self, MARK, progression, put};

// A buffer with room for a circuit and all that belongs to it, or for a scratch, of 1,024 rows.
pub type Words = [u32; 32768];

// So many words from a place on, or those that there are.
pub fn part(words: &Words, place: usize, count: usize) -> &[u32]
    ensures { length result.now ≤ count }
{
    let rest = words.get(place..).unwrap_or(&[]);
    words::first(rest, count)
}

// The first so many words, to be written.
pub fn first(xs: &mut [u32], count: usize) -> &mut [u32] {
    words::first_mut(xs, count)
}

// The word at a place, and 0 past the end.
pub fn at(xs: &[u32], place: usize) -> u32 {
    xs.get(place).copied().unwrap_or(0)
}

// Words written from a place on, as many as there is room for.
pub fn lay(xs: &[u32], out: &mut [u32], place: usize) {
    for (to, from) in out.iter_mut().skip(place).zip(xs) {
        *to = *from;
    }
}

// A buffer of distinct numbers that no result has: what is lent to a call that is to write it.
pub fn marked() -> Words
    ensures { 32768 ≡ length result }
{
    let mut xs: Words = field::room();
    progression(&mut xs, MARK, 1);
    xs
}

// a + b × c modulo p, and 0 for p = 0.
pub fn mul_add(p: u32, a: u32, b: u32, c: u32) -> u32 {
    if p == 0 {
        return 0;
    }
    field::mul_add(p, a, b, c)
}

// The words with the last one before `end` raised by one modulo p.
pub fn raised(p: u32, mut words: Words, end: usize) -> Words {
    let place = end.wrapping_sub(1);
    let x = mul_add(p, 1, 1, at(&words, place));
    put(&mut words, place, x);
    words
}

// The number after x in a fixed sequence that looks random, of which circuits are made.
pub fn next(x: u32) -> u32 {
    let y = (x as u64 * 48271 + 11) % 2147483647;
    y as u32
}

// The same in another sequence, for what is no circuit.
fn next_other(x: u32) -> u32 {
    x.wrapping_mul(1664525).wrapping_add(1013904223)
}

// Numbers below p: those behind `first` in the sequence in which `next` gives the number after each.
fn fill_by<F: Fn(u32) -> u32>(next: F, p: u32, first: u32, xs: &mut [u32])
    requires { F.IsAlwaysCallable next }
{
    let mut drawn = first;
    for x in xs {
        drawn = next(drawn);
        *x = mul_add(p, drawn, 0, 0);
    }
}

// The same in the sequence of which circuits are made.
pub fn fill(p: u32, first: u32, xs: &mut [u32]) {
    fill_by(next, p, first, xs);
}

// As many numbers below p that look random as there is room for.
pub fn random(p: u32) -> Words {
    let mut xs: Words = field::room();
    fill_by(next_other, p, p, &mut xs);
    xs
}

// A number below p that looks random.
pub fn draw(p: u32, seed: u32) -> u32 {
    mul_add(p, next(next(seed)), 0, 0)
}

// A number that depends on every word and on their order.
pub fn digest(xs: &[u32]) -> u32 {
    xs.iter().fold(0, |d, x| mul_add(1000003, *x, 31, d))
}
