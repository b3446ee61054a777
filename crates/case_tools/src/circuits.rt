// A circuit, what it is filled with, and what was made of it, in one buffer, each part at a place of its own with room for 1,024 rows; and the calls on it.
ghost use Rattle.std.specs.Prelude.{◌≤◌};

use super::buffers::{Words, first, part};
use super::{buffers, print};
use blocks::words::{MARK, first_mut, progression, put};
use field::Refusal;
use pointcheck::Judged;
use rowcheck::{Identity, Verdict};

// The numbers of a call, and whether the transcript is blinded.
#[derive(Clone, Copy)]
pub struct Shape {
    pub p: u32,
    pub n: u32,
    pub l: u32,
    pub blinded: bool,
}

// Where the parts stand. The selectors come first.
pub const LABELS: usize = 5120;

pub const WITNESS: usize = 8192;

pub const PUBLICS: usize = 11264;

pub const PREPARED: usize = 12288;

pub const TRANSCRIPT: usize = 20480;

pub const CHALLENGES: usize = 28672;

// The blinders stand straight behind the four challenges, as `read` lays them.
pub const BLINDERS: usize = 28676;

// The polynomials that are opened: all, the last first.
const LIST: [u32; 13] = [12, 11, 10, 9, 8, 7, 6, 5, 4, 3, 2, 1, 0];

// The number e: 1 where the transcript is blinded, else 0.
pub fn blinding(s: Shape) -> usize
    ensures { result ≤ 1 }
{
    usize::from(s.blinded)
}

// The length of the transcript.
pub fn long(s: Shape) -> usize {
    circuit::transcript_length(blinding(s), s.n as usize)
}

// The length of the scratch of a call that lays the transcript, or is lent it.
pub fn work(s: Shape) -> usize {
    circuit::work_length(blinding(s), s.n as usize)
}

// The transcript.
pub fn transcript(s: Shape, words: &Words) -> &[u32] {
    part(words, TRANSCRIPT, long(s))
}

// What `prove_blinded` answers.
fn prove_blinded(
    s: Shape,
    words: &Words,
    transcript: &mut [u32],
    scratch: &mut [u32],
) -> Result<(), Refusal> {
    let n = s.n as usize;
    prover::prove_blinded(
        s.p,
        s.n,
        s.l,
        part(words, 0, 5 * n),
        part(words, LABELS, 3 * n),
        part(words, WITNESS, 3 * n),
        part(words, PUBLICS, s.l as usize),
        first(transcript, long(s)),
        part(words, CHALLENGES, 3),
        part(words, BLINDERS, circuit::BLINDER_COUNT),
        first(scratch, work(s)),
    )
}

// What `prove` answers, or `prove_blinded` where the transcript is to be blinded.
pub fn prove(
    s: Shape,
    words: &Words,
    transcript: &mut [u32],
    scratch: &mut [u32],
) -> Result<(), Refusal> {
    if s.blinded {
        return prove_blinded(s, words, transcript, scratch);
    }
    let n = s.n as usize;
    prover::prove(
        s.p,
        s.n,
        s.l,
        part(words, 0, 5 * n),
        part(words, LABELS, 3 * n),
        part(words, WITNESS, 3 * n),
        part(words, PUBLICS, s.l as usize),
        first(transcript, long(s)),
        part(words, CHALLENGES, 3),
        first(scratch, work(s)),
    )
}

// A copy with the prepared circuit.
pub fn prepared(s: Shape, words: &Words) -> Words {
    let n = s.n as usize;
    let k = 8 * n;
    let mut written: Words = field::room();
    let mut scratch: Words = field::room();
    let mut changed = *words;
    // A call that is turned down writes nothing: the place stays 0.
    let _ = preparing::prepare(
        s.p,
        s.n,
        s.l,
        part(words, 0, 5 * n),
        part(words, LABELS, 3 * n),
        first(&mut written, k),
        first(&mut scratch, 16 * n),
    );
    buffers::lay(part(&written, 0, k), &mut changed, PREPARED);
    changed
}

// A line's start: a label, which says so where the transcript is blinded.
pub fn label(rt: HostRuntime, text: &[u8], s: Shape) {
    print::text(rt, text);
    if s.blinded {
        print::text(rt, b", blinded");
    }
}

// A verdict at a point; `none` where the call is turned down.
pub fn print_judged(rt: HostRuntime, r: Result<Judged, Refusal>) {
    match r {
        Ok(Judged::Accept) => print::word(rt, b"accept"),
        Ok(Judged::Reject) => print::word(rt, b"reject"),
        Err(_) => print::word(rt, b"none"),
    }
}

// What the point check answers.
pub fn point(s: Shape, words: &Words) -> Result<Judged, Refusal> {
    let n = s.n as usize;
    let mut scratch: Words = field::room();
    pointcheck::check_point(
        s.p,
        s.n,
        s.l,
        part(words, PUBLICS, s.l as usize),
        part(words, PREPARED, 8 * n),
        transcript(s, words),
        part(words, CHALLENGES, 4),
        first(&mut scratch, work(s)),
    )
}

// How many zetas are tried: all of them over the two small primes.
fn tried(s: Shape) -> u32 {
    if s.p <= 97 {
        return s.p;
    }
    if s.n <= 64 { 8 } else { 4 }
}

// The zeta of a try. Over the largest prime they are 0, the points of rows 0 and 1, and numbers that look random.
fn zeta(s: Shape, k: u32) -> u32 {
    if s.p <= 97 || s.n == 0 {
        return k;
    }
    match k {
        0 | 1 => k,
        2 => field::pow(s.p, 31, (s.p - 1) / s.n),
        _ => buffers::draw(s.p, k),
    }
}

// The verdict with this zeta is accept.
fn accepts(s: Shape, mut words: Words, zeta: u32) -> bool {
    words[CHALLENGES + 3] = zeta;
    point(s, &words) == Ok(Judged::Accept)
}

// At how many of the tried zetas the transcript is accepted.
pub fn accepted(s: Shape, words: &Words) -> u32 {
    (0..tried(s))
        .filter(|k| accepts(s, *words, zeta(s, *k)))
        .count() as u32
}

// The same, `of`, and how many were tried.
pub fn print_points(rt: HostRuntime, s: Shape, words: &Words) {
    print::number(rt, accepted(s, words));
    print::word(rt, b"of");
    print::number(rt, tried(s));
}

// The line of the transcript with t's first coefficient raised: it is accepted at the rows' points, of which two are tried over the largest prime.
pub fn change_t(rt: HostRuntime, s: Shape, words: &Words) {
    let end = TRANSCRIPT + circuit::t_start(blinding(s), s.n as usize) + 1;
    print::heading(rt, b"first coefficient of t changed", &[s.p, s.n, s.l]);
    print_points(rt, s, &buffers::raised(s.p, *words, end));
    print::text(rt, b"\n");
}

fn print_identity(rt: HostRuntime, id: Identity) {
    match id {
        Identity::Gate => print::word(rt, b"gate"),
        Identity::Start => print::word(rt, b"start"),
        Identity::Step => print::word(rt, b"step"),
    }
}

// A verdict on the rows; `none` where the call is turned down.
fn print_verdict(rt: HostRuntime, r: Result<Verdict, Refusal>) {
    match r {
        Ok(Verdict::Pass) => print::word(rt, b"pass"),
        Ok(Verdict::Fails(id, row)) => {
            print_identity(rt, id);
            print::number(rt, row);
        }
        Err(_) => print::word(rt, b"none"),
    }
}

// The n coefficients that a polynomial leaves over X^n - 1, which have its values on the rows: those that it has from n on are added in turn to the first.
fn folded(p: u32, n: usize, f: &[u32]) -> Words {
    let mut low: Words = field::room();
    let (first, rest) = f.split_at(n.min(f.len()));
    buffers::lay(first, &mut low, 0);
    for (i, x) in rest.iter().enumerate() {
        let at = i.checked_rem(n).unwrap_or(0);
        let sum = buffers::mul_add(p, buffers::at(&low, at), 1, *x);
        put(&mut low, at, sum);
    }
    low
}

// z on the rows, at the buffer's start, from its polynomial in the transcript.
fn z_rows(s: Shape, words: &Words) -> Words {
    let n = s.n as usize;
    let e = blinding(s);
    let start = TRANSCRIPT + circuit::z_start(e, n);
    let low = folded(s.p, n, part(words, start, circuit::z_length(e, n)));
    let mut z: Words = field::room();
    let mut scratch: Words = field::room();
    let work = first(&mut scratch, 16 * n);
    // A call that is turned down writes nothing: z stays 0.
    let _ = transform::evaluate(s.p, s.n, part(&low, 0, n), first(&mut z, n), work);
    z
}

// The row check's verdict, with z on the rows, and the line's end.
pub fn print_rows(rt: HostRuntime, s: Shape, words: &Words) {
    let n = s.n as usize;
    let k = 3 * n;
    let z = z_rows(s, words);
    let r = rowcheck::check_rows(
        s.p,
        s.n,
        s.l,
        part(words, 0, 5 * n),
        part(words, LABELS, k),
        part(words, WITNESS, k),
        part(words, PUBLICS, s.l as usize),
        part(&z, 0, n),
        part(words, CHALLENGES, 2),
    );
    print_verdict(rt, r);
    print::text(rt, b"\n");
}

// The numbers that were written over marks, or a digest where they are many; `kept` where the marks are there.
fn print_written(rt: HostRuntime, xs: &[u32]) {
    if xs == part(&buffers::marked(), 0, xs.len()) {
        print::word(rt, b"kept");
    } else if xs.len() <= 13 {
        print::word(rt, b"written");
        print::numbers(rt, xs);
    } else {
        print::word(rt, b"digest");
        print::number(rt, buffers::digest(xs));
    }
}

// The line of `check_opening` for every polynomial at 3, with the mixing number 5.
fn check(
    rt: HostRuntime,
    text: &[u8],
    s: Shape,
    words: &Words,
    evaluations: &[u32],
    quotient: &[u32],
) {
    let k = work(s);
    let mut scratch = buffers::marked();
    let r = opening::check_opening(
        s.p,
        s.n,
        part(words, PREPARED, 8 * (s.n as usize)),
        transcript(s, words),
        &LIST,
        evaluations,
        quotient,
        &[3, 5],
        first(&mut scratch, k),
    );
    label(rt, text, s);
    print::heading(rt, b",check", &[s.p, s.n]);
    print::answer(rt, &r);
    print_judged(rt, r);
    print::left(rt, part(&scratch, 0, k));
    print::text(rt, b"\n");
}

// Every polynomial opened there: the answer, what was written, and the scratch; and that checked, as it is and with the last evaluation raised.
pub fn every_polynomial(rt: HostRuntime, s: Shape, words: &Words) {
    let n = s.n as usize;
    let k = work(s);
    let mut values = [0u32; 13];
    progression(&mut values, MARK, 1);
    let mut quotient = buffers::marked();
    let mut scratch = buffers::marked();
    let q = first_mut(&mut quotient, circuit::opening_length(blinding(s), n));
    let answer = opening::open(
        s.p,
        s.n,
        part(words, PREPARED, 8 * n),
        transcript(s, words),
        &LIST,
        &mut values,
        q,
        &[3, 5],
        first(&mut scratch, k),
    );
    label(rt, b"every polynomial", s);
    print::heading(rt, b",open", &[s.p, s.n]);
    print::answer(rt, &answer);
    print_written(rt, &values);
    print_written(rt, q);
    print::left(rt, part(&scratch, 0, k));
    print::text(rt, b"\n");
    check(rt, b"every polynomial", s, words, &values, q);
    let last = buffers::mul_add(s.p, 1, 1, values[12]);
    values[12] = last;
    check(rt, b"last evaluation raised", s, words, &values, q);
}
