// Opening several polynomials at one point: their evaluations, and one polynomial that shows them right.
//
// Public calls: `open` and `check_opening`. Each decides first, reading only, and then does the work. The transcript may be blinded: its length
// decides, and e is 1 where it is, else 0. The challenges are the point, then the mixing number m.
#![tactic(auto)]

ghost use Rattle.std.specs.Prelude.{◌≡◌, length, get_or, replicate};
ghost use Rattle.field.specs.Reasons.{told, outcome};
ghost use Rattle.circuit.specs.Buffers.{work_length, blinded_by};
ghost use Rattle.opening.specs.Opening.{evaluations_of, opening_of};
ghost use Rattle.opening.specs.Promises.{judged_opening, Opens, ChecksOpening};
ghost use Rattle.opening.specs.Buffers.{Checked};

use field::Refusal;
use pointcheck::Judged;

mod comparing;
mod decide;
mod division;
mod mixing;

// The work of `open` on checked numbers: the evaluations, then the opening polynomial. The scratch is cleared.
fn work<'a>(
    p: u32,
    n: u32,
    prepared: &'a [u32],
    transcript: &'a [u32],
    list: &[u32],
    evaluations: &mut [u32],
    opening: &mut [u32],
    challenges: &[u32],
    scratch: &mut [u32],
)
    requires checked { Checked p n prepared.now transcript.now list.now evaluations.old opening.old challenges.now }
    requires scratch_len { length scratch.old ≡ work_length (blinded_by n transcript.now) n }
    ensures evaluations_after { evaluations.new ≡ evaluations_of (blinded_by n transcript.now) p n prepared.now transcript.now list.now (get_or challenges.now 0 0) }
    ensures opening_after { opening.new ≡ opening_of (blinded_by n transcript.now) p n prepared.now transcript.now list.now (get_or challenges.now 0 0) (get_or challenges.now 1 0) }
    ensures scratch_after { scratch.new ≡ replicate (work_length (blinded_by n transcript.now) n) 0 }
{
    mixing::evaluate(p, n, prepared, transcript, list, challenges[0], evaluations);
    let e = circuit::blinded_by(n as usize, transcript);
    let long = circuit::quotient_length(e, n as usize);
    division::write_opening(
        p,
        n,
        prepared,
        transcript,
        list,
        evaluations,
        opening,
        challenges,
        &mut scratch[..long],
    );
    scratch.fill(0);
}

// The work of `check_opening` on checked numbers: the verdict. The scratch is cleared.
fn judge<'a>(
    p: u32,
    n: u32,
    prepared: &'a [u32],
    transcript: &'a [u32],
    list: &[u32],
    evaluations: &[u32],
    opening: &[u32],
    challenges: &[u32],
    scratch: &mut [u32],
) -> Judged
    requires checked { Checked p n prepared.now transcript.now list.now evaluations.now opening.now challenges.now }
    requires scratch_len { length scratch.old ≡ work_length (blinded_by n transcript.now) n }
    ensures value { result ≡ judged_opening p n prepared.now transcript.now list.now evaluations.now opening.now challenges.now }
    ensures scratch_after { scratch.new ≡ replicate (work_length (blinded_by n transcript.now) n) 0 }
{
    let e = circuit::blinded_by(n as usize, transcript);
    let long = circuit::quotient_length(e, n as usize);
    let same = comparing::agrees(
        p,
        n,
        prepared,
        transcript,
        list,
        evaluations,
        opening,
        challenges,
        &mut scratch[..long],
    );
    scratch.fill(0);
    if same {
        return Judged::Accept;
    }
    Judged::Reject
}

// The evaluations at a point of the polynomials that a list names, and their opening polynomial; or why the call is turned down.
pub fn open<'a>(
    p: u32,
    n: u32,
    prepared: &'a [u32],
    transcript: &'a [u32],
    list: &[u32],
    evaluations: &mut [u32],
    opening: &mut [u32],
    challenges: &[u32],
    scratch: &mut [u32],
) -> Result<(), Refusal>
    ensures { Opens p n prepared.now transcript.now list.now evaluations.old opening.old challenges.now scratch.old (told result) evaluations.new opening.new scratch.new }
{
    decide::decide_open(
        p,
        n,
        prepared,
        transcript,
        list,
        evaluations,
        opening,
        challenges,
        scratch,
    )?;
    work(
        p,
        n,
        prepared,
        transcript,
        list,
        evaluations,
        opening,
        challenges,
        scratch,
    );
    Ok(())
}

// Accept if the mixture of the lent evaluations equals the lent opening polynomial × (X - point) in every coefficient, else reject; or why the
// call is turned down.
// Stays a call of its own beside `open`: C calls both.
pub fn check_opening<'a>(
    p: u32,
    n: u32,
    prepared: &'a [u32],
    transcript: &'a [u32],
    list: &[u32],
    evaluations: &[u32],
    opening: &[u32],
    challenges: &[u32],
    scratch: &mut [u32],
) -> Result<Judged, Refusal>
    ensures { ChecksOpening p n prepared.now transcript.now list.now evaluations.now opening.now challenges.now scratch.old (outcome result) scratch.new }
{
    decide::decide_check(
        p,
        n,
        prepared,
        transcript,
        list,
        evaluations,
        opening,
        challenges,
        scratch,
    )?;
    Ok(judge(
        p,
        n,
        prepared,
        transcript,
        list,
        evaluations,
        opening,
        challenges,
        scratch,
    ))
}
