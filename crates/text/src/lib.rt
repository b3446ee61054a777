// Numbers and lines in a text of bytes: reading them here, writing them in `writing`.
//
// The functions are for the layers above, which have checked the text's length.
#![tactic(auto)]

ghost use Rattle.std.specs.Prelude.{◌≡◌, true, false, cond, not, ◌&&◌, ◌||◌, ◌+◌, ◌-◌, ◌≤◌, ◌<◌, min, eqb, ltb, length, get_or, MatchOption};
ghost use Rattle.std.specs.List.{position};
ghost use Rattle.algebra.specs.Lists.{tab};
ghost use Rattle.text.specs.Text.{is_digit, digits_end, value_of, is_number_at, number_at, field_at, closing, is_line_at};

mod writing;

pub use writing::{put_line, put_numbers, put_refused, put_word};

// What stands at a place: its value where it is a number, and where its digits end, whether it is one or not.
#[derive(Drop)]
pub struct Parsed {
    pub value: Option<u32>,
    pub next: usize,
}

// 2^32, which stands for every number that is not below it.
const CAP: u64 = 4294967296;

// The byte is a digit.
fn is_digit(b: u8) -> bool
    ensures { result ≡ is_digit b }
{
    b.is_ascii_digit()
}

// What a digit writes; 0 for a byte below the digits.
fn digit(b: u8) -> u64
    ensures { (result ≡ b - 48) × (result < 256) }
{
    b.saturating_sub(48) as u64
}

// The place of the first byte that is no digit.
fn other_byte(s: &[u8]) -> Option<usize>
    ensures { result ≡ position (λ b. not (is_digit b)) s.now }
{
    s.iter().position(|b| !is_digit(*b))
}

// Where the run of digits that starts at `at` ends.
fn digits_end(s: &[u8], at: usize) -> usize
    requires { at ≤ length s.now }
    ensures { (result ≡ digits_end s.now at) × (at ≤ result) × (result ≤ length s.now) }
{
    match other_byte(&s[at..]) {
        Some(k) => at + k,
        None => s.len(),
    }
}

// The number that k digits from `at` on write, or 2^32 where it is more.
fn value(s: &[u8], at: usize, k: usize) -> u64
    requires { at + k ≤ length s.now }
    ensures { result ≡ min (value_of s.now at k) 4294967296 }
{
    let mut v: u64 = 0;
    for i in 0..k {
        v = CAP.min(10 * v + digit(s[at + i]));
    }
    v
}

// The k digits at `at`, which write v, are in form: at least one, no leading zero, and v is below 2^32.
fn in_form(s: &[u8], at: usize, k: usize, v: u64) -> bool
    requires { at + k ≤ length s.now }
    ensures { result ≡ ((ltb 0 k && (eqb k 1 || not (eqb (get_or s.now at 0) 48))) && ltb v 4294967296) }
{
    0 < k && (k == 1 || s[at] != 48) && v < CAP
}

// The number at `at`.
pub fn number(s: &[u8], at: usize) -> Parsed
    requires { (at ≤ length s.now) × (length s.now ≤ 65536) }
    ensures value_value { result.value ≡ cond (is_number_at s.now at) (Some (number_at s.now at)) None }
    ensures next_value { result.next ≡ digits_end s.now at }
{
    let next = digits_end(s, at);
    let k = next - at;
    let v = value(s, at, k);
    if !in_form(s, at, k, v) {
        return Parsed { value: None, next };
    }
    Parsed {
        value: Some(v as u32),
        next,
    }
}

// Byte b, which is not 0, stands at `at`.
fn stands(s: &[u8], at: usize, b: u8) -> bool
    requires { 0 < b }
    ensures { result ≡ eqb (get_or s.now at 0) b }
{
    at < s.len() && s[at] == b
}

// The number at `at` and where its digits end, if the byte behind it is `close`.
fn closed(s: &[u8], at: usize, close: u8) -> Option<(u32, usize)>
    requires { (at ≤ length s.now) × (length s.now ≤ 65536) × (0 < close) }
    ensures { MatchOption result ((is_number_at s.now at && eqb (get_or s.now (digits_end s.now at) 0) close) ≡ false) (λ n. ((is_number_at s.now at && eqb (get_or s.now (digits_end s.now at) 0) close) ≡ true) × (n.0 ≡ number_at s.now at) × (n.1 ≡ digits_end s.now at) × (n.1 < length s.now)) }
{
    let Parsed { value, next } = number(s, at);
    let value = value?;
    if !stands(s, next, close) {
        return None;
    }
    Some((value, next))
}

// The byte behind number j of a line of k: byte 10 behind the last, else a comma.
fn close_of(k: usize, j: usize) -> u8
    requires { j < k }
    ensures { (result ≡ closing k j) × (0 < result) }
{
    if j + 1 == k {
        return 10;
    }
    44
}

// A line of as many numbers as `out` has words, which starts at `at`: where the next one starts, if the line is in form.
pub fn line(s: &[u8], at: usize, out: &mut [u32]) -> Option<usize>
    requires { (at ≤ length s.now) × (length s.now ≤ 65536) × (0 < length out.old) }
    ensures { MatchOption result (is_line_at s.now at (length out.old) ≡ false) (λ next. (is_line_at s.now at (length out.old) ≡ true) × (next ≡ field_at s.now at (length out.old)) × (next ≤ length s.now) × (out.new ≡ tab (λ j. number_at s.now (field_at s.now at j)) (length out.old))) }
{
    let mut next = at;
    for j in 0..out.len() {
        let (value, end) = closed(s, next, close_of(out.len(), j))?;
        out[j] = value;
        next = end + 1;
    }
    Some(next)
}
