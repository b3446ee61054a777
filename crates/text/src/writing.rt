// Numbers and lines in a text of bytes: writing. Each function puts a run of bytes at a place of a buffer, and answers where the next byte goes.
// Stays without Display: a text is the bytes of a lent buffer, and its definitions (`line_text`, `decimal`) are of bytes.
ghost use Rattle.std.specs.Prelude.{◌≡◌, ◌∷◌, [], ◌+◌, ◌*◌, ◌<◌, ◌≤◌, length};
ghost use Rattle.text.specs.Text.{decimal_of, decimal, fields_text, line_text, line_of, refused_text};
ghost use Rattle.text.specs.Puts.{field_bytes, Puts};

// One byte.
fn put_byte(b: u8, out: &mut [u8], at: usize) -> usize
    requires { at < length out.old }
    ensures { Puts at (b ∷ []) out.old result out.new }
{
    out[at] = b;
    at + 1
}

// The last digits of a number in decimal, at most `most` of them.
fn put_digits(most: u32, v: u32, out: &mut [u8], at: usize) -> usize
    requires { at + most ≤ length out.old }
    ensures { Puts at (decimal_of most v) out.old result out.new }
{
    if most == 0 {
        return at;
    }
    if v < 10 {
        return put_byte(48 + v as u8, out, at);
    }
    let next = put_digits(most - 1, v / 10, out, at);
    put_byte(48 + (v % 10) as u8, out, next)
}

// A comma and a number in decimal.
fn put_field(v: u32, out: &mut [u8], at: usize) -> usize
    requires { at + field_bytes ≤ length out.old }
    ensures { Puts at (44 ∷ decimal v) out.old result out.new }
{
    let next = put_byte(44, out, at);
    put_digits(10, v, out, next)
}

// The fields of a line: a comma and the number in decimal, for each.
fn put_fields(vs: &[u32], out: &mut [u8], at: usize) -> usize
    requires { at + field_bytes * length vs.now ≤ length out.old }
    ensures { Puts at (fields_text vs.now) out.old result out.new }
{
    let mut next = at;
    for v in vs {
        next = put_field(*v, out, next);
    }
    next
}

// The bytes of a word.
pub fn put_word(word: &[u8], out: &mut [u8], at: usize) -> usize
    requires { at + length word.now ≤ length out.old }
    ensures { Puts at word.now out.old result out.new }
{
    let end = at + word.len();
    out[at..end].copy_from_slice(word);
    end
}

// A line that begins with a word: the word, its fields, and byte 10.
pub fn put_line(word: &[u8], vs: &[u32], out: &mut [u8], at: usize) -> usize
    requires { at + (length word.now + field_bytes * length vs.now + 1) ≤ length out.old }
    ensures { Puts at (line_text word.now vs.now) out.old result out.new }
{
    let second = put_word(word, out, at);
    let third = put_fields(vs, out, second);
    put_byte(10, out, third)
}

// A line of numbers: the first one, the fields of the others, and byte 10.
pub fn put_numbers(vs: &[u32], out: &mut [u8], at: usize) -> usize
    requires { (0 < length vs.now) × (at + field_bytes * length vs.now ≤ length out.old) }
    ensures { Puts at (line_of vs.now) out.old result out.new }
{
    let second = put_digits(10, vs[0], out, at);
    let third = put_fields(&vs[1..], out, second);
    put_byte(10, out, third)
}

// The line of a refusal, at the buffer's start.
pub fn put_refused(number: u32, detail: u32, out: &mut [u8]) -> usize
    requires { 30 ≤ length out.old }
    ensures { Puts 0 (refused_text number detail) out.old result out.new }
{
    put_line(b"refused", &[number, detail], out, 0)
}
