// Why a call is turned down, if it is: the reasons in order. Nothing is written.
ghost use Rattle.std.specs.Prelude.{◌≡◌, [], ◌∷◌, ◌++◌, ◌+◌, ◌<◌, ◌≤◌, length};
ghost use Rattle.field.specs.Reasons.{told, answer_of, bad_element};
ghost use Rattle.opening.specs.Reasons.{opening_due, list_reasons, lent_list_reasons, open_reasons, check_reasons};

use field::{Cause, Refusal};

// The lengths due, in the order in which the buffers are counted, for a list of k numbers, e being 1 where the transcript is blinded, else 0:
// prepared circuit, transcript, list, evaluations, opening polynomial, challenges, scratch.
fn lengths_due(e: usize, n: usize, k: usize) -> [usize; 7]
    requires { (e ≤ 1) × (n < 4294967296) }
    ensures { result ≡ opening_due e n k }
{
    [
        circuit::prepared_length(n),
        circuit::transcript_length(e, n),
        k,
        k,
        circuit::opening_length(e, n),
        2,
        circuit::work_length(e, n),
    ]
}

// The reasons of the list: 12 and 13.
fn decide_list(list: &[u32]) -> Result<(), Refusal>
    ensures { told result ≡ answer_of (list_reasons list.now) }
{
    let k = list.len();
    if k == 0 {
        return field::refused(Cause::List, 0);
    }
    if circuit::POLYNOMIAL_COUNT < k {
        return field::refused(Cause::List, 0);
    }
    field::decide_at(
        Cause::Polynomial,
        field::first_above(circuit::POLYNOMIAL_COUNT as u32, list),
        k,
    )
}

// The reasons of p and n, of the lengths and of the list: 2, 3, 6, 12 and 13.
fn decide_lent(
    p: u32,
    n: u32,
    prepared: &[u32],
    transcript: &[u32],
    list: &[u32],
    evaluations: &[u32],
    opening: &[u32],
    challenges: &[u32],
    scratch: &[u32],
) -> Result<(), Refusal>
    ensures { told result ≡ answer_of (lent_list_reasons p n prepared.now transcript.now list.now evaluations.now opening.now challenges.now scratch.now) }
{
    let long = [
        prepared.len(),
        transcript.len(),
        list.len(),
        evaluations.len(),
        opening.len(),
        challenges.len(),
        scratch.len(),
    ];
    let e = circuit::blinded_by(n as usize, transcript);
    let due = lengths_due(e, n as usize, list.len());
    field::decide_lent(p, n, 0, &long, &due)?;
    decide_list(list)
}

// The reason of the numbers in the buffers that are read, end to end: 7.
fn decide_elements(
    p: u32,
    prepared: &[u32],
    transcript: &[u32],
    evaluations: &[u32],
    opening: &[u32],
    challenges: &[u32],
) -> Result<(), Refusal>
    requires { length prepared.now + length transcript.now + length evaluations.now + length opening.now + length challenges.now ≤ 65536 }
    ensures { told result ≡ answer_of (bad_element p (prepared.now ++ (transcript.now ++ (evaluations.now ++ (opening.now ++ challenges.now)))) ∷ []) }
{
    let at = field::first_of_four(p, prepared, transcript, evaluations, opening);
    let passed = prepared.len() + transcript.len() + evaluations.len() + opening.len();
    let last = field::then_above(p, at, passed, challenges);
    field::decide_at(Cause::Element, last, passed + challenges.len())
}

// The reasons of `open`, which only writes the evaluations and the opening polynomial, and counts none of their words among the elements.
pub fn decide_open(
    p: u32,
    n: u32,
    prepared: &[u32],
    transcript: &[u32],
    list: &[u32],
    evaluations: &[u32],
    opening: &[u32],
    challenges: &[u32],
    scratch: &[u32],
) -> Result<(), Refusal>
    ensures { told result ≡ answer_of (open_reasons p n prepared.now transcript.now list.now evaluations.now opening.now challenges.now scratch.now) }
{
    decide_lent(
        p,
        n,
        prepared,
        transcript,
        list,
        evaluations,
        opening,
        challenges,
        scratch,
    )?;
    decide_elements(p, prepared, transcript, &[], &[], challenges)
}

// The reasons of `check_opening`.
pub fn decide_check(
    p: u32,
    n: u32,
    prepared: &[u32],
    transcript: &[u32],
    list: &[u32],
    evaluations: &[u32],
    opening: &[u32],
    challenges: &[u32],
    scratch: &[u32],
) -> Result<(), Refusal>
    ensures { told result ≡ answer_of (check_reasons p n prepared.now transcript.now list.now evaluations.now opening.now challenges.now scratch.now) }
{
    decide_lent(
        p,
        n,
        prepared,
        transcript,
        list,
        evaluations,
        opening,
        challenges,
        scratch,
    )?;
    decide_elements(p, prepared, transcript, evaluations, opening, challenges)
}
