// Reasons for turning a call down that several calls share. Nothing is written.
ghost use Rattle.std.specs.Prelude.{◌≡◌, [], ◌∷◌, ◌≤◌, length};
ghost use Rattle.field.specs.Reasons.{number_of, told, answer_of, prime_reasons, shape_reasons, first_other, bad_lengths, lent_reasons, reason_at};

use super::{Cause, Refusal, refused};

// The reasons of a prime that is to be proved with: 2, and 16 where it is retired.
pub fn decide_prime(p: u32) -> Result<(), Refusal>
    ensures { told result ≡ answer_of (prime_reasons p) }
{
    if !super::is_field(p) {
        return refused(Cause::Prime, 0);
    }
    if !super::is_current(p) {
        return refused(Cause::Retired, 0);
    }
    Ok(())
}

// The reasons of p, n and l, where n may be at most `most`: 2, 3 and 4. A call that is lent no l has l = 0.
pub fn decide_shape(p: u32, n: u32, l: u32, most: u32) -> Result<(), Refusal>
    ensures { told result ≡ answer_of (shape_reasons p n l most) }
{
    if !super::is_field(p) {
        return refused(Cause::Prime, 0);
    }
    if !super::is_rows(p, n) {
        return refused(Cause::Rows, 0);
    }
    if most < n {
        return refused(Cause::Rows, 0);
    }
    if n < l {
        return refused(Cause::Publics, 0);
    }
    Ok(())
}

// The first place, from 0, at which two tables of one length differ; their length where they agree.
fn first_other(long: &[usize], due: &[usize]) -> usize
    requires { length long.now ≡ length due.now }
    ensures { result ≡ first_other long.now due.now }
{
    for i in 0..due.len() {
        if long[i] != due[i] {
            return i;
        }
    }
    due.len()
}

// The reason of the lengths, 6: a table of the lengths of a call's buffers, and one of those due, in the order in which the buffers are counted.
// Stays with two tables: the definitions speak of the lengths and of those due apart (`bad_lengths`, `point_due` and the others).
pub fn decide_lengths(long: &[usize], due: &[usize]) -> Result<(), Refusal>
    requires { (length long.now ≡ length due.now) × (length due.now ≤ 16) }
    ensures { told result ≡ answer_of (bad_lengths long.now due.now ∷ []) }
{
    let place = first_other(long, due);
    if place < due.len() {
        return refused(Cause::Length, (place + 1) as u32);
    }
    Ok(())
}

// The reasons of p, n and l, then that of the lengths: 2, 3, 4 and 6.
pub fn decide_lent(p: u32, n: u32, l: u32, long: &[usize], due: &[usize]) -> Result<(), Refusal>
    requires { (length long.now ≡ length due.now) × (length due.now ≤ 16) }
    ensures { told result ≡ answer_of (lent_reasons p n l long.now due.now) }
{
    decide_shape(p, n, l, super::greatest_rows(p))?;
    decide_lengths(long, due)
}

// A reason that a search found at the place `at`, of `count` places; `count` stands for none.
pub fn decide_at(cause: Cause, at: usize, count: usize) -> Result<(), Refusal>
    requires { count ≤ 65536 }
    ensures { told result ≡ answer_of (reason_at (number_of cause) at count ∷ []) }
{
    if at < count {
        return refused(cause, at as u32);
    }
    Ok(())
}
