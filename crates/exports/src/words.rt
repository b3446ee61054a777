// What calls answer, as words at the start of a lent buffer. A word for which the buffer has no room is left out.
ghost use Rattle.std.specs.Prelude.{◌≡◌, ◌<◌, Option, List, ℕ, ◌∷◌};
ghost use Rattle.field.specs.Reasons.{outcome, given};
ghost use Rattle.exports.specs.Answers.{over, outcome_words, nothing_behind, inverse_behind, identity_word, verdict_word, verdict_row, row_behind, judged_word, point_behind, sheet_behind, count_behind};

use field::Refusal;
use pointcheck::Judged;
use rowcheck::{Identity, Verdict};
use sheet::Sheet;

// A word that is no element of any field: what stands where there is no inverse.
const NO_ELEMENT: u32 = 4294967295;

// The words over the start of a buffer.
// Stays a `for` over the index: the library's `copy_from_slice` costs more than the few words that are laid.
fn lay(words: &[u32], buffer: &mut [u32])
    ensures { buffer.new ≡ over words.now buffer.old }
{
    for k in 0..words.len().min(buffer.len()) {
        buffer[k] = words[k];
    }
}

// What a call gives, none where it is turned down. Its words stand behind the answer's number and detail.
pub trait Behind {
    ghost behind: { Self → List ℕ };

    fn put(self, buffer: &mut [u32])
        ensures { buffer.new ≡ over (behind self) buffer.old };
}

// A number, a detail, and the words behind them.
fn put_behind<T>(number: u32, detail: u32, given: Option<T>, buffer: &mut [u32])
where
    Option<T>: Behind,
    ensures { buffer.new ≡ over (number ∷ detail ∷ ⟦<Option<T> as Behind>⟧.behind given) buffer.old }
{
    let (head, rest) = buffer.split_at_mut(buffer.len().min(2));
    lay(&[number, detail], head);
    given.put(rest);
}

// What a call answers: the number and the detail of its refusal, 0 and 0 where it is accepted, and the words behind them.
pub fn put_outcome<T>(r: Result<T, Refusal>, buffer: &mut [u32])
where
    Option<T>: Behind,
    ensures { buffer.new ≡ over (outcome_words ⟦<Option<T> as Behind>⟧.behind (outcome r)) buffer.old }
{
    match r {
        Ok(given) => put_behind(0, 0, Some(given), buffer),
        Err(e) => put_behind::<T>(e.cause.number(), e.detail, None, buffer),
    }
}

// A call that gives nothing: no words.
impl Behind for Option<()> {
    ghost behind = { nothing_behind };

    fn put(self, _buffer: &mut [u32]) {}
}

// Whether there is an inverse, 1 or 0, and the inverse, or NO_ELEMENT.
impl Behind for Option<Option<u32>> {
    ghost behind = { inverse_behind };

    fn put(self, buffer: &mut [u32]) {
        let inverse = self.flatten();
        lay(
            &[u32::from(inverse.is_some()), inverse.unwrap_or(NO_ELEMENT)],
            buffer,
        );
    }
}

// The word of a failing identity.
fn identity_word(id: Identity) -> u32
    ensures { result ≡ identity_word id }
{
    match id {
        Identity::Gate => 2,
        Identity::Start => 3,
        Identity::Step => 4,
    }
}

// The word of a row verdict.
fn verdict_word(v: Option<Verdict>) -> u32
    ensures { result ≡ verdict_word v }
{
    match v {
        None => 0,
        Some(Verdict::Pass) => 1,
        Some(Verdict::Fails(id, _)) => identity_word(id),
    }
}

// The row of a row verdict; 0 where no row fails.
fn verdict_row(v: Option<Verdict>) -> u32
    ensures { result ≡ verdict_row v }
{
    match v {
        Some(Verdict::Fails(_, row)) => row,
        _ => 0,
    }
}

// The word of the verdict and its row.
impl Behind for Option<Verdict> {
    ghost behind = { row_behind };

    fn put(self, buffer: &mut [u32]) {
        lay(&[verdict_word(self), verdict_row(self)], buffer);
    }
}

// The word of a point verdict.
fn judged_word(v: Option<Judged>) -> u32
    ensures { result ≡ judged_word v }
{
    match v {
        None => 0,
        Some(Judged::Accept) => 1,
        Some(Judged::Reject) => 2,
    }
}

// The word of the verdict.
impl Behind for Option<Judged> {
    ghost behind = { point_behind };

    fn put(self, buffer: &mut [u32]) {
        lay(&[judged_word(self)], buffer);
    }
}

// p, n, l and whether there is a line of blinders, 1 or 0.
impl Behind for Option<Sheet> {
    ghost behind = { sheet_behind };

    fn put(self, buffer: &mut [u32]) {
        let words = match self {
            None => [0; 4],
            Some(s) => [s.p, s.n, s.l, u32::from(s.blinded)],
        };
        lay(&words, buffer);
    }
}

// A count, or the length of what was written.
impl Behind for Option<u32> {
    ghost behind = { count_behind };

    fn put(self, buffer: &mut [u32]) {
        lay(&[self.unwrap_or(0)], buffer);
    }
}

// A number of bytes as a word.
pub fn in_word(r: Result<usize, Refusal>) -> Result<u32, Refusal>
    requires { given (outcome r) < 4294967296 }
    ensures { result ≡ r }
{
    Ok(r? as u32)
}
