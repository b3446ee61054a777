// The prover (document 01: the worker): from a witness to the transcript a, b, c, z, t.
//
// The public calls are `prove` and `prove_blinded`. Both decide first, reading only, and then lay the polynomials, each through a part of the transcript. The
// number e of the inner functions is 1 for `prove_blinded`, and 0 for `prove`, which is lent no blinders.
#![tactic(auto)]

ghost use Rattle.std.specs.Prelude.{◌≡◌, List, [], ◌++◌, ℕ, ◌≤◌, length, get_or, take, drop, replicate};
ghost use Rattle.std.proofs.Math.Option.{some, map};
ghost use Rattle.algebra.specs.Polynomial.{reduced};
ghost use Rattle.field.specs.Reasons.{told};
ghost use Rattle.circuit.specs.Circuit.{lent_constraints, lent_witness};
ghost use Rattle.circuit.specs.Buffers.{f_length, transcript_length, t_start, work_length};
ghost use Rattle.protocol.specs.Protocol.{quotient};
ghost use Rattle.laying.specs.Rows.{laid_rows};
ghost use Rattle.prover.specs.Promises.{proved_from, Proves};
ghost use Rattle.prover.specs.Buffers.{lent_f, Ready, Front, Checked};

use field::Refusal;
use field::rows::Domain;

// F at the start of the scratch, from a, b, c and z as they are laid. The prepared circuit stands in an array of its own.
fn fill_f(
    e: usize,
    domain: &Domain,
    selectors: &[u32],
    labels: &[u32],
    publics: &[u32],
    laid: &[u32],
    challenges: &[u32],
    scratch: &mut [u32],
)
    requires { Ready e domain.now.p domain.now.n selectors.now labels.now publics.now challenges.now scratch.old × (length laid.now ≡ t_start e domain.now.n) }
    ensures { take (f_length e domain.now.n) scratch.new ≡ reduced domain.now.p (f_length e domain.now.n) (lent_f e domain.now.p domain.now.n selectors.now labels.now publics.now laid.now challenges.now) }
{
    let m = domain.n as usize;
    let k = circuit::prepared_length(m);
    let room = transform::scratch_length(m);
    let end = circuit::f_length(e, m);
    let mut prepared: [u32; circuit::PREPARED_ROOM] = field::room();
    preparing::work(
        domain,
        selectors,
        labels,
        &mut prepared[..k],
        &mut scratch[..room],
    );
    quotients::fill(
        e,
        domain,
        publics,
        &prepared[..k],
        laid,
        challenges[0],
        challenges[1],
        challenges[2],
        &mut scratch[..end],
    );
}

// t behind a, b, c and z: the quotient of F by X^n - 1.
fn lay_t(
    e: usize,
    domain: &Domain,
    selectors: &[u32],
    labels: &[u32],
    publics: &[u32],
    transcript: &mut [u32],
    challenges: &[u32],
    scratch: &mut [u32],
)
    requires { Ready e domain.now.p domain.now.n selectors.now labels.now publics.now challenges.now scratch.old × (length transcript.old ≡ transcript_length e domain.now.n) }
    ensures { transcript.new ≡ take (t_start e domain.now.n) transcript.old ++ quotient e domain.now.p domain.now.n (lent_f e domain.now.p domain.now.n selectors.now labels.now publics.now (take (t_start e domain.now.n) transcript.old) challenges.now) }
{
    let m = domain.n as usize;
    let at = circuit::t_start(e, m);
    let end = circuit::f_length(e, m);
    fill_f(
        e,
        domain,
        selectors,
        labels,
        publics,
        &transcript[..at],
        challenges,
        scratch,
    );
    quotients::divide(domain.p, m, &scratch[..end], &mut transcript[at..]);
}

// a, b, c and z at the transcript's start. The scratch is written.
fn lay_front(
    e: usize,
    domain: &Domain,
    labels: &[u32],
    witness: &[u32],
    transcript: &mut [u32],
    challenges: &[u32],
    blinders: &[u32],
    scratch: &mut [u32],
)
    requires { Front e domain.now.p domain.now.n labels.now witness.now transcript.old challenges.now blinders.now scratch.old }
    ensures { (selectors : List ℕ) → map (λ laid. laid ++ drop (t_start e domain.now.n) transcript.old) (laid_rows e domain.now.p domain.now.n (lent_constraints domain.now.n selectors labels.now) (lent_witness domain.now.n witness.now) blinders.now (get_or challenges.now 0 0) (get_or challenges.now 1 0)) ≡ some transcript.new }
{
    let m = domain.n as usize;
    let end = circuit::t_start(e, m);
    laying::lay_rows(
        e,
        domain,
        labels,
        witness,
        blinders,
        challenges[0],
        challenges[1],
        &mut transcript[..end],
        &mut scratch[..m],
    );
}

// The work on checked numbers: a, b, c and z, then t behind them, and the scratch cleared.
fn work(
    e: usize,
    p: u32,
    n: u32,
    selectors: &[u32],
    labels: &[u32],
    witness: &[u32],
    publics: &[u32],
    transcript: &mut [u32],
    challenges: &[u32],
    blinders: &[u32],
    scratch: &mut [u32],
)
    requires { Checked e p n selectors.now labels.now witness.now publics.now transcript.old challenges.now blinders.now scratch.old }
    ensures blinders_value { proved_from e p n selectors.now labels.now witness.now publics.now challenges.now blinders.now ≡ some transcript.new }
    ensures scratch_after { scratch.new ≡ replicate (work_length e n) 0 }
{
    let domain = Domain::new(p, n);
    lay_front(
        e, &domain, labels, witness, transcript, challenges, blinders, scratch,
    );
    lay_t(
        e, &domain, selectors, labels, publics, transcript, challenges, scratch,
    );
    scratch.fill(0);
}

// A whole call of either kind: the decision, and the work where no reason applies. The layer above, which has the e of its sheet, makes it too.
pub fn run(
    e: usize,
    p: u32,
    n: u32,
    l: u32,
    selectors: &[u32],
    labels: &[u32],
    witness: &[u32],
    publics: &[u32],
    transcript: &mut [u32],
    challenges: &[u32],
    blinders: &[u32],
    scratch: &mut [u32],
) -> Result<(), Refusal>
    requires { (e ≤ 1) × (e ≡ 0 → blinders.now ≡ []) }
    ensures { Proves e p n l selectors.now labels.now witness.now publics.now transcript.old challenges.now blinders.now scratch.old (told result) transcript.new scratch.new }
{
    witnesses::decide(
        e, p, n, l, selectors, labels, witness, publics, transcript, challenges, blinders, scratch,
    )?;
    work(
        e, p, n, selectors, labels, witness, publics, transcript, challenges, blinders, scratch,
    );
    Ok(())
}

// The transcript a, b, c, z, t of a witness that satisfies its circuit; or why the call is turned down. The challenges are beta, gamma, alpha.
pub fn prove(
    p: u32,
    n: u32,
    l: u32,
    selectors: &[u32],
    labels: &[u32],
    witness: &[u32],
    publics: &[u32],
    transcript: &mut [u32],
    challenges: &[u32],
    scratch: &mut [u32],
) -> Result<(), Refusal>
    ensures { Proves 0 p n l selectors.now labels.now witness.now publics.now transcript.old challenges.now [] scratch.old (told result) transcript.new scratch.new }
{
    run(
        0,
        p,
        n,
        l,
        selectors,
        labels,
        witness,
        publics,
        transcript,
        challenges,
        &challenges[..0],
        scratch,
    )
}

// The same, blinded by nine lent numbers: a, b, c and z have multiples of X^n - 1 added, and the transcript is 18 numbers longer.
// Stays a call of its own beside `prove`: C calls both.
pub fn prove_blinded(
    p: u32,
    n: u32,
    l: u32,
    selectors: &[u32],
    labels: &[u32],
    witness: &[u32],
    publics: &[u32],
    transcript: &mut [u32],
    challenges: &[u32],
    blinders: &[u32],
    scratch: &mut [u32],
) -> Result<(), Refusal>
    ensures { Proves 1 p n l selectors.now labels.now witness.now publics.now transcript.old challenges.now blinders.now scratch.old (told result) transcript.new scratch.new }
{
    run(
        1, p, n, l, selectors, labels, witness, publics, transcript, challenges, blinders, scratch,
    )
}
