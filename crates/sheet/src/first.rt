// The first line of a sheet: p, n and l, and the reasons that speak of them.
ghost use Rattle.std.specs.Prelude.{◌≡◌, ◌∷◌, [], IfOk};
ghost use Rattle.field.specs.Lent.{Shape};
ghost use Rattle.field.specs.Reasons.{told, answer_of};
ghost use Rattle.sheet.specs.Sheet.{sheet_rows, bad_first, first_reasons};
ghost use Rattle.sheet.specs.Deciding.{Opened, prime_line};

use field::{Cause, Refusal};

// What the first line says, and where line 1 starts.
#[derive(Clone, Copy, Debug, PartialEq, Eq)]
pub struct First {
    pub p: u32,
    pub n: u32,
    pub l: u32,
    pub next: usize,
}

// Reads the first line: the reason 1.
fn read_first(s: &[u8]) -> Result<First, Refusal>
    ensures answer_value { told result ≡ answer_of (bad_first s.now ∷ []) }
    ensures opened { IfOk result (λ first. Opened s.now first.p first.n first.l first.next) }
{
    if 65536 < s.len() {
        return field::refused(Cause::Sheet, 0);
    }
    let mut words = [0; 3];
    let Some(next) = text::line(s, 0, &mut words) else {
        return field::refused(Cause::Sheet, 0);
    };
    let [p, n, l] = words;
    Ok(First { p, n, l, next })
}

// All reasons of the first line: 1, then those of p, n and l.
pub fn decide_first(s: &[u8]) -> Result<First, Refusal>
    ensures answer_value { told result ≡ answer_of (first_reasons s.now) }
    ensures opened { IfOk result (λ first. Opened s.now first.p first.n first.l first.next × Shape first.p first.n first.l sheet_rows) }
{
    let first = read_first(s)?;
    field::decide_shape(first.p, first.n, first.l, super::ROWS)?;
    Ok(first)
}

// The reasons of a new sheet's first line up to that of its prime: 1, 2 and 16.
pub fn decide_prime(s: &[u8]) -> Result<(), Refusal>
    ensures { told result ≡ answer_of (prime_line s.now) }
{
    let first = read_first(s)?;
    field::decide_prime(first.p)
}
