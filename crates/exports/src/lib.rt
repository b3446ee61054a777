// The public calls, but for `polynomial`, each under its name with the prefix guppyspoon_, as callers in C and Rust have them from `exports_c`.
//
// No slice may overlap one that is written. Nothing is returned. The answer's words are written to `answer`, the last slice of each call: number
// and detail, and then
//
//   guppyspoon_inverse         1 or 0 (there is an inverse, or none); and the inverse, or 4294967295, which is no element
//   guppyspoon_check_rows      0 none, 1 pass, 2 gate, 3 start, 4 step; and the row that fails, or 0
//   guppyspoon_check_point     0 none, 1 accept, 2 reject
//   guppyspoon_check_opening   0 none, 1 accept, 2 reject
//   guppyspoon_lost_gammas     how many gammas are lost
//   guppyspoon_read            p, n, l, and 1 or 0: whether the sheet has a line of blinders
//   guppyspoon_deposit         the number of bytes of the text
//   guppyspoon_join            the number of bytes of the joined sheet
//
// The answer may have any length. The call is made in any case: of its words as many are written as there is room for, and what stands behind
// them is left as it was.
#![tactic(auto)]

ghost use Rattle.std.specs.Prelude.{[]};
ghost use Rattle.algebra.specs.Polynomial.{coef};
ghost use Rattle.field.specs.Reasons.{Inverts};
ghost use Rattle.transform.specs.Transform.{evaluation, interpolation, Transforms};
ghost use Rattle.circuit.specs.Promises.{Permutes};
ghost use Rattle.preparing.specs.Promises.{Prepares};
ghost use Rattle.rowcheck.specs.Promises.{ChecksRows};
ghost use Rattle.pointcheck.specs.Promises.{PointChecks};
ghost use Rattle.opening.specs.Promises.{Opens, ChecksOpening};
ghost use Rattle.prover.specs.Promises.{Proves};
ghost use Rattle.losses.specs.Losses.{LosesGammas};
ghost use Rattle.sheet.specs.Promises.{Reads};
ghost use Rattle.transfer.specs.Transfer.{to_rows, to_columns, Transfers};
ghost use Rattle.joining.specs.Joining.{Joins};
ghost use Rattle.archive.specs.Deposit.{Deposits};
ghost use Rattle.exports.specs.Answers.{answer_words, inverted_words, row_words, point_words, counted_words, sheet_words, deposited_words, joined_words, Handed};

mod words;

// `field::inverse`: the inverse of x modulo p; none for 0.
pub fn guppyspoon_inverse(p: u32, x: u32, answer: &mut [u32])
    ensures { Handed inverted_words (λ r. Inverts p x r) answer.old answer.new }
{
    let r = field::inverse(p, x);
    words::put_outcome(r, answer);
}

// `transform::evaluate`: the values of a polynomial of n coefficients at the n domain points.
pub fn guppyspoon_evaluate(
    p: u32,
    n: u32,
    coefficients: &[u32],
    values: &mut [u32],
    scratch: &mut [u32],
    answer: &mut [u32],
)
    ensures { Handed answer_words (λ r. Transforms p n (evaluation p n) coefficients.now values.old scratch.old r values.new scratch.new) answer.old answer.new }
{
    let r = transform::evaluate(p, n, coefficients, values, scratch);
    words::put_outcome(r, answer);
}

// `transform::interpolate`: the one polynomial of n coefficients with the given values at the n domain points.
pub fn guppyspoon_interpolate(
    p: u32,
    n: u32,
    values: &[u32],
    coefficients: &mut [u32],
    scratch: &mut [u32],
    answer: &mut [u32],
)
    ensures { Handed answer_words (λ r. Transforms p n (λ v. interpolation p n (coef v)) values.now coefficients.old scratch.old r coefficients.new scratch.new) answer.old answer.new }
{
    let r = transform::interpolate(p, n, values, coefficients, scratch);
    words::put_outcome(r, answer);
}

// `circuit::permutation`: the position that the copy permutation leads to from each of the 3n positions.
pub fn guppyspoon_permutation(
    p: u32,
    n: u32,
    labels: &[u32],
    positions: &mut [u32],
    answer: &mut [u32],
)
    ensures { Handed answer_words (λ r. Permutes p n labels.now positions.old r positions.new) answer.old answer.new }
{
    let r = circuit::permutation(p, n, labels, positions);
    words::put_outcome(r, answer);
}

// `preparing::prepare`: the prepared circuit.
pub fn guppyspoon_prepare(
    p: u32,
    n: u32,
    l: u32,
    selectors: &[u32],
    labels: &[u32],
    written: &mut [u32],
    scratch: &mut [u32],
    answer: &mut [u32],
)
    ensures { Handed answer_words (λ r. Prepares p n l selectors.now labels.now written.old scratch.old r written.new scratch.new) answer.old answer.new }
{
    let r = preparing::prepare(p, n, l, selectors, labels, written, scratch);
    words::put_outcome(r, answer);
}

// `rowcheck::check_rows`: whether the three identities hold at every row, and where not, at which first.
pub fn guppyspoon_check_rows(
    p: u32,
    n: u32,
    l: u32,
    selectors: &[u32],
    labels: &[u32],
    witness: &[u32],
    publics: &[u32],
    z: &[u32],
    challenges: &[u32],
    answer: &mut [u32],
)
    ensures { Handed row_words (λ r. ChecksRows p n l selectors.now labels.now witness.now publics.now z.now challenges.now r) answer.old answer.new }
{
    let r = rowcheck::check_rows(p, n, l, selectors, labels, witness, publics, z, challenges);
    words::put_outcome(r, answer);
}

// `pointcheck::check_point`: whether a lent transcript answers for a prepared circuit at one point.
pub fn guppyspoon_check_point(
    p: u32,
    n: u32,
    l: u32,
    publics: &[u32],
    prepared: &[u32],
    transcript: &[u32],
    challenges: &[u32],
    scratch: &mut [u32],
    answer: &mut [u32],
)
    ensures { Handed point_words (λ r. PointChecks p n l publics.now prepared.now transcript.now challenges.now scratch.old r scratch.new) answer.old answer.new }
{
    let r = pointcheck::check_point(p, n, l, publics, prepared, transcript, challenges, scratch);
    words::put_outcome(r, answer);
}

// `opening::open`: the evaluations at a point of the polynomials that a list names, and their opening polynomial.
pub fn guppyspoon_open<'a>(
    p: u32,
    n: u32,
    prepared: &'a [u32],
    transcript: &'a [u32],
    list: &[u32],
    evaluations: &mut [u32],
    opening: &mut [u32],
    challenges: &[u32],
    scratch: &mut [u32],
    answer: &mut [u32],
)
    ensures { Handed answer_words (λ r. Opens p n prepared.now transcript.now list.now evaluations.old opening.old challenges.now scratch.old r evaluations.new opening.new scratch.new) answer.old answer.new }
{
    let r = opening::open(
        p,
        n,
        prepared,
        transcript,
        list,
        evaluations,
        opening,
        challenges,
        scratch,
    );
    words::put_outcome(r, answer);
}

// `opening::check_opening`: whether lent evaluations and a lent opening polynomial are right, as polynomials.
pub fn guppyspoon_check_opening<'a>(
    p: u32,
    n: u32,
    prepared: &'a [u32],
    transcript: &'a [u32],
    list: &[u32],
    evaluations: &[u32],
    opening: &[u32],
    challenges: &[u32],
    scratch: &mut [u32],
    answer: &mut [u32],
)
    ensures { Handed point_words (λ r. ChecksOpening p n prepared.now transcript.now list.now evaluations.now opening.now challenges.now scratch.old r scratch.new) answer.old answer.new }
{
    let r = opening::check_opening(
        p,
        n,
        prepared,
        transcript,
        list,
        evaluations,
        opening,
        challenges,
        scratch,
    );
    words::put_outcome(r, answer);
}

// `prover::prove`: the transcript a, b, c, z, t of a witness that satisfies its circuit.
pub fn guppyspoon_prove(
    p: u32,
    n: u32,
    l: u32,
    selectors: &[u32],
    labels: &[u32],
    witness: &[u32],
    publics: &[u32],
    transcript: &mut [u32],
    challenges: &[u32],
    scratch: &mut [u32],
    answer: &mut [u32],
)
    ensures { Handed answer_words (λ r. Proves 0 p n l selectors.now labels.now witness.now publics.now transcript.old challenges.now [] scratch.old r transcript.new scratch.new) answer.old answer.new }
{
    let r = prover::prove(
        p, n, l, selectors, labels, witness, publics, transcript, challenges, scratch,
    );
    words::put_outcome(r, answer);
}

// `prover::prove_blinded`: the same, blinded by nine numbers.
pub fn guppyspoon_prove_blinded(
    p: u32,
    n: u32,
    l: u32,
    selectors: &[u32],
    labels: &[u32],
    witness: &[u32],
    publics: &[u32],
    transcript: &mut [u32],
    challenges: &[u32],
    blinders: &[u32],
    scratch: &mut [u32],
    answer: &mut [u32],
)
    ensures { Handed answer_words (λ r. Proves 1 p n l selectors.now labels.now witness.now publics.now transcript.old challenges.now blinders.now scratch.old r transcript.new scratch.new) answer.old answer.new }
{
    let r = prover::prove_blinded(
        p, n, l, selectors, labels, witness, publics, transcript, challenges, blinders, scratch,
    );
    words::put_outcome(r, answer);
}

// `losses::lost_gammas`: how many gammas a beta loses to reason 11.
pub fn guppyspoon_lost_gammas(
    p: u32,
    n: u32,
    witness: &[u32],
    challenges: &[u32],
    answer: &mut [u32],
)
    ensures { Handed counted_words (λ r. LosesGammas p n witness.now challenges.now r) answer.old answer.new }
{
    let r = losses::lost_gammas(p, n, witness, challenges);
    words::put_outcome(r, answer);
}

// `sheet::read`: the numbers of a sheet, laid out as they are lent for 256 rows.
pub fn guppyspoon_read(
    sheet: &[u8],
    selectors: &mut [u32],
    labels: &mut [u32],
    witness: &mut [u32],
    publics: &mut [u32],
    challenges: &mut [u32],
    answer: &mut [u32],
)
    ensures { Handed sheet_words (λ r. Reads sheet.now selectors.old labels.old witness.old publics.old challenges.old r selectors.new labels.new witness.new publics.new challenges.new) answer.old answer.new }
{
    let r = sheet::read(sheet, selectors, labels, witness, publics, challenges);
    words::put_outcome(r, answer);
}

// `transfer::to_rows`: contents that stand column after column, as they were lent before request 8 of document 02, row by row.
pub fn guppyspoon_to_rows(n: u32, columns: &[u32], rows: &mut [u32], answer: &mut [u32])
    ensures { Handed answer_words (λ r. Transfers n (to_rows n) columns.now rows.old r rows.new) answer.old answer.new }
{
    let r = transfer::to_rows(n, columns, rows);
    words::put_outcome(r, answer);
}

// `transfer::to_columns`: contents that stand row by row, column after column.
pub fn guppyspoon_to_columns(n: u32, rows: &[u32], columns: &mut [u32], answer: &mut [u32])
    ensures { Handed answer_words (λ r. Transfers n (to_columns n) rows.now columns.old r columns.new) answer.old answer.new }
{
    let r = transfer::to_columns(n, rows, columns);
    words::put_outcome(r, answer);
}

// `archive::deposit`: the text of a sheet's deposit.
pub fn guppyspoon_deposit(sheet: &[u8], text: &mut [u8], answer: &mut [u32])
    ensures { Handed deposited_words (λ r. Deposits sheet.now text.old r text.new) answer.old answer.new }
{
    let r = archive::deposit(sheet, text);
    words::put_outcome(words::in_word(r), answer);
}

// `joining::join`: the sheet of two sheets' circuits and what they are filled with.
pub fn guppyspoon_join(one: &[u8], two: &[u8], joined: &mut [u8], answer: &mut [u32])
    ensures { Handed joined_words (λ r. Joins one.now two.now joined.old r joined.new) answer.old answer.new }
{
    let r = joining::join(one, two, joined);
    words::put_outcome(words::in_word(r), answer);
}
