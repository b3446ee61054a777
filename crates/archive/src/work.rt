// From a sheet's numbers to the text: the prover, preparing and the point check, each with a scratch of its own. The number e is 1 where the
// transcript is blinded, else 0.
ghost use Rattle.std.specs.Prelude.{◌≡◌, [], ◌≤◌, length};
ghost use Rattle.field.specs.Fields.{Admissible};
ghost use Rattle.field.specs.Reasons.{told};
ghost use Rattle.circuit.specs.Circuit.{lent_constraints};
ghost use Rattle.circuit.specs.Buffers.{prepared_length, transcript_length};
ghost use Rattle.circuit.specs.RightlyLent.{RightCircuit};
ghost use Rattle.protocol.specs.Protocol.{prepared as Protocol·prepared};
ghost use Rattle.pointcheck.specs.Promises.{judged_at};
ghost use Rattle.text.specs.Puts.{Puts};
ghost use Rattle.archive.specs.Printed.{text_length, work_text};
ghost use Rattle.archive.specs.Work.{Lays, Judgeable, Checkable, Workable, judged_from, checked_text};

use crate::lines::{put_judged, put_refusal, put_transcript};
use crate::rooms;
use field::Refusal;
use pointcheck::Judged;

// The transcript, or why the prover turns the numbers down. The first three challenges are beta, gamma, alpha.
fn lay(
    e: usize,
    p: u32,
    n: u32,
    l: u32,
    selectors: &[u32],
    labels: &[u32],
    witness: &[u32],
    publics: &[u32],
    transcript: &mut [u32],
    challenges: &[u32],
    blinders: &[u32],
) -> Result<(), Refusal>
    requires e_bound { (e ≤ 1) × (e ≡ 0 → blinders.now ≡ []) }
    requires n_bound { (n ≤ 256) × (3 ≤ length challenges.now) × (length transcript.old ≡ transcript_length e n) }
    ensures { Lays e p n l selectors.now labels.now witness.now publics.now challenges.now blinders.now transcript.old (told result) transcript.new }
{
    let m = n as usize;
    let end = circuit::work_length(e, m);
    let mut scratch = rooms::scratch_room();
    prover::run(
        e,
        p,
        n,
        l,
        selectors,
        labels,
        witness,
        publics,
        transcript,
        &challenges[..3],
        blinders,
        &mut scratch[..end],
    )
}

// The prepared circuit.
fn prepare(p: u32, n: u32, l: u32, selectors: &[u32], labels: &[u32], prepared: &mut [u32])
    requires { (n ≤ 256) × Admissible p n × RightCircuit p n l selectors.now labels.now × (length prepared.old ≡ prepared_length n) }
    ensures { prepared.new ≡ Protocol·prepared p n (lent_constraints n selectors.now labels.now) }
{
    let m = n as usize;
    let end = transform::scratch_length(m);
    let mut scratch = rooms::scratch_room();
    preparing::prepare(p, n, l, selectors, labels, prepared, &mut scratch[..end]).unwrap();
}

// The point verdict on a transcript and a prepared circuit.
fn check(
    e: usize,
    p: u32,
    n: u32,
    l: u32,
    publics: &[u32],
    prepared: &[u32],
    transcript: &[u32],
    challenges: &[u32],
) -> Judged
    requires { Judgeable e p n l publics.now prepared.now transcript.now challenges.now }
    ensures { result ≡ judged_at p n publics.now prepared.now transcript.now challenges.now }
{
    let m = n as usize;
    let end = circuit::work_length(e, m);
    let mut scratch = rooms::scratch_room();
    pointcheck::check_point(
        p,
        n,
        l,
        publics,
        prepared,
        transcript,
        challenges,
        &mut scratch[..end],
    )
    .unwrap()
}

// The point verdict on a transcript and a circuit, which is prepared first.
fn judge(
    e: usize,
    p: u32,
    n: u32,
    l: u32,
    selectors: &[u32],
    labels: &[u32],
    publics: &[u32],
    transcript: &[u32],
    challenges: &[u32],
) -> Judged
    requires { Checkable e p n l selectors.now labels.now publics.now transcript.now challenges.now }
    ensures { result ≡ judged_from p n selectors.now labels.now publics.now transcript.now challenges.now }
{
    let m = n as usize;
    let end = circuit::prepared_length(m);
    let mut prepared = rooms::prepared_room();
    prepare(p, n, l, selectors, labels, &mut prepared[..end]);
    check(
        e,
        p,
        n,
        l,
        publics,
        &prepared[..end],
        transcript,
        challenges,
    )
}

// The text of a transcript: its five polynomials, and the point verdict.
fn print_checked(
    e: usize,
    p: u32,
    n: u32,
    l: u32,
    selectors: &[u32],
    labels: &[u32],
    publics: &[u32],
    transcript: &[u32],
    challenges: &[u32],
    text: &mut [u8],
) -> usize
    requires { Checkable e p n l selectors.now labels.now publics.now transcript.now challenges.now × (length text.old ≡ text_length) }
    ensures { Puts 0 (checked_text e p n selectors.now labels.now publics.now transcript.now challenges.now) text.old result text.new }
{
    let m = n as usize;
    let verdict = judge(
        e, p, n, l, selectors, labels, publics, transcript, challenges,
    );
    let next = put_transcript(e, m, transcript, text);
    put_judged(verdict, text, next)
}

// The text of a sheet's numbers: the prover's refusal, or what it laid and the point verdict on that.
pub fn print_work(
    e: usize,
    p: u32,
    n: u32,
    l: u32,
    selectors: &[u32],
    labels: &[u32],
    witness: &[u32],
    publics: &[u32],
    challenges: &[u32],
    blinders: &[u32],
    text: &mut [u8],
) -> usize
    requires { Workable e p n challenges.now blinders.now text.old }
    ensures { Puts 0 (work_text e p n l selectors.now labels.now witness.now publics.now challenges.now blinders.now) text.old result text.new }
{
    let m = n as usize;
    let end = circuit::transcript_length(e, m);
    let mut transcript = rooms::transcript_room();
    let laid = lay(
        e,
        p,
        n,
        l,
        selectors,
        labels,
        witness,
        publics,
        &mut transcript[..end],
        challenges,
        blinders,
    );
    match laid {
        Ok(()) => print_checked(
            e,
            p,
            n,
            l,
            selectors,
            labels,
            publics,
            &transcript[..end],
            challenges,
            text,
        ),
        Err(refusal) => put_refusal(refusal, text),
    }
}
