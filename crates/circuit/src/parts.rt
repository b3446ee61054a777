// The polynomials in lent buffers: each as a part of its buffer, and by number.
ghost use Rattle.std.specs.Prelude.{◌≡◌, ◌+◌, ◌-◌, ◌≤◌, ◌<◌, length};
ghost use Rattle.circuit.specs.Buffers.{prepared_count, prepared_length, wire_length, z_length, t_start, t_part, transcript_length};
ghost use Rattle.circuit.specs.Promises.{any_rows, prepared_place, wire_place, z_place, numbered_part, Hands};

use super::lengths;
use super::lengths::{PREPARED_LAST, T_NUMBER, WIRE_LAST, WIRE_NUMBER, Z_NUMBER};

// n is a number of rows that one of the three primes has.
#[tactic(auto, unfolding(crate::specs::Promises::any_rows))]
pub fn any_rows(n: u32) -> bool
    ensures { result ≡ any_rows n }
{
    field::is_rows(17, n) || field::is_rows(97, n) || field::is_rows(2013265921, n)
}

// `count` numbers of a buffer, from the one at `start` on.
fn piece(buffer: &[u32], start: usize, count: usize) -> &[u32]
    requires { start + count ≤ length buffer.now }
    ensures hands { Hands (record { buffer = buffer.entry; start = start; count = count }) result }
    ensures result_len { length result.now ≡ count }
{
    &buffer[start..start + count]
}

// Polynomial s of a prepared circuit.
pub fn prepared_part(n: usize, s: usize, prepared: &[u32]) -> &[u32]
    requires { (n ≤ 1024) × (s < prepared_count) × (prepared_length n ≤ length prepared.now) }
    ensures hands { Hands (prepared_place n s prepared.entry) result }
    ensures result_len { length result.now ≡ n }
{
    piece(prepared, lengths::prepared_start(n, s), n)
}

// The wire of a column, of a transcript or of its first part, which ends where t starts.
pub fn wire_part(e: usize, n: usize, column: usize, transcript: &[u32]) -> &[u32]
    requires { (e ≤ 1) × (n ≤ 1024) × (column < 3) × (t_start e n ≤ length transcript.now) }
    ensures hands { Hands (wire_place e n column transcript.entry) result }
    ensures result_len { length result.now ≡ wire_length e n }
{
    piece(
        transcript,
        lengths::wire_start(e, n, column),
        lengths::wire_length(e, n),
    )
}

// z of a transcript or of its first part.
pub fn z_part(e: usize, n: usize, transcript: &[u32]) -> &[u32]
    requires { (e ≤ 1) × (n ≤ 1024) × (t_start e n ≤ length transcript.now) }
    ensures hands { Hands (z_place e n transcript.entry) result }
    ensures result_len { length result.now ≡ z_length e n }
{
    piece(transcript, lengths::z_start(e, n), lengths::z_length(e, n))
}

// t of a transcript: what stands behind z.
pub fn t_part(e: usize, n: usize, transcript: &[u32]) -> &[u32]
    requires { (e ≤ 1) × (n ≤ 1024) × (t_start e n ≤ length transcript.now) }
    ensures hands { Hands (record { buffer = transcript.entry; start = t_start e n; count = length transcript.now - t_start e n }) result }
    ensures result_value { result.now ≡ t_part e n transcript.now }
{
    &transcript[lengths::t_start(e, n)..]
}

// Polynomial `number` of buffers of the right lengths, n being the number of rows.
pub fn part<'a>(
    e: usize,
    n: usize,
    number: u32,
    prepared: &'a [u32],
    transcript: &'a [u32],
) -> &'a [u32]
    requires e_bound { (e ≤ 1) × (2 ≤ n) × (n ≤ 1024) }
    requires prepared_len { (length prepared.now ≡ prepared_length n) × (length transcript.now ≡ transcript_length e n) }
    ensures { Hands (numbered_part e n number prepared.entry transcript.entry) result }
{
    match number {
        0..=PREPARED_LAST => prepared_part(n, number as usize, prepared),
        WIRE_NUMBER..=WIRE_LAST => wire_part(e, n, (number - WIRE_NUMBER) as usize, transcript),
        Z_NUMBER => z_part(e, n, transcript),
        T_NUMBER => t_part(e, n, transcript),
        _ => &transcript[..0],
    }
}
