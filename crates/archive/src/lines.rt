// The lines of a deposit's text.
ghost use Rattle.std.specs.Prelude.{◌++◌, ◌+◌, ◌*◌, ◌≤◌, length};
ghost use Rattle.field.specs.Reasons.{number_of};
ghost use Rattle.text.specs.Text.{refused_text};
ghost use Rattle.text.specs.Puts.{field_bytes, Puts};
ghost use Rattle.archive.specs.Printed.{letter_line, judged_text, transcript_text};
ghost use Rattle.archive.specs.Lines.{Laid};

use field::Refusal;
use pointcheck::Judged;
use text::{put_line, put_refused, put_word};

// The line of a refusal, at the buffer's start.
pub fn put_refusal(refusal: Refusal, out: &mut [u8]) -> usize
    requires { 30 ≤ length out.old }
    ensures { Puts 0 (refused_text (number_of refusal.cause) refusal.detail) out.old result out.new }
{
    put_refused(refusal.cause.number(), refusal.detail, out)
}

// The line of a verdict.
pub fn put_judged(verdict: Judged, out: &mut [u8], at: usize) -> usize
    requires { at + 7 ≤ length out.old }
    ensures { Puts at (judged_text verdict) out.old result out.new }
{
    match verdict {
        Judged::Accept => put_word(b"accept\n", out, at),
        Judged::Reject => put_word(b"reject\n", out, at),
    }
}

// The lines of the three wires, at the buffer's start.
pub fn put_wires(a: &[u32], b: &[u32], c: &[u32], out: &mut [u8]) -> usize
    requires { field_bytes * length a.now + field_bytes * length b.now + field_bytes * length c.now + 6 ≤ length out.old }
    ensures { Puts 0 (letter_line 97 a.now ++ (letter_line 98 b.now ++ letter_line 99 c.now)) out.old result out.new }
{
    let second = put_line(b"a", a, out, 0);
    let third = put_line(b"b", b, out, second);
    put_line(b"c", c, out, third)
}

// The lines of z and t.
pub fn put_rest(z: &[u32], t: &[u32], out: &mut [u8], at: usize) -> usize
    requires { at + (field_bytes * length z.now + field_bytes * length t.now + 4) ≤ length out.old }
    ensures { Puts at (letter_line 122 z.now ++ letter_line 116 t.now) out.old result out.new }
{
    let next = put_line(b"z", z, out, at);
    put_line(b"t", t, out, next)
}

// The lines of the five polynomials of a transcript, at the buffer's start.
pub fn put_transcript(e: usize, m: usize, transcript: &[u32], out: &mut [u8]) -> usize
    requires { Laid e m transcript.now out.old }
    ensures { Puts 0 (transcript_text e m transcript.now) out.old result out.new }
{
    let next = put_wires(
        circuit::wire_part(e, m, 0, transcript),
        circuit::wire_part(e, m, 1, transcript),
        circuit::wire_part(e, m, 2, transcript),
        out,
    );
    put_rest(
        circuit::z_part(e, m, transcript),
        circuit::t_part(e, m, transcript),
        out,
        next,
    )
}
