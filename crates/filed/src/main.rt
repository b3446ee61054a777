// Deposits as they were filed, blinded or not: a sheet, and the text that was printed for it. They are read, prepared, checked and opened, and nothing is
// proved anew, so that a deposit over a retired prime keeps its verdicts. The arguments are names of files, two for each deposit:
//
//     SHEET TEXT
//
// Its lines are: the sheet's name, the answer of `read`, p, n and l, the point verdict and whether it is the one that was filed, at how many zetas
// the transcript is accepted, `of`, how many were tried, and the row verdict; the same count where the first coefficient of t is changed, and the row
// verdict where the last content is; `open` and `check_opening` for every polynomial; and what `prove` or `prove_blinded`, `deposit` and `join` answer where
// the sheet is taken as a new one.
#![tactic(auto)]

use blocks::words::{first, first_mut, put};
use case_tools::buffers::Words;
use case_tools::circuits::Shape;
use case_tools::{buffers, circuits, print};
use field::Refusal;
use pointcheck::Judged;
use sheet::Sheet;

// Whether these bytes stand at a place of a text.
fn says(text: &[u8], at: usize, bytes: &[u8]) -> bool {
    text.get(at..).is_some_and(|rest| rest.starts_with(bytes))
}

// A line that is out of form: a word that is no element stands at the polynomial's end, so that every call refuses the transcript, and no verdict stands
// behind it.
fn out_of_form(text: &[u8], words: &mut [u32], end: usize) -> usize {
    put(words, end.wrapping_sub(1), 4294967295);
    text.len()
}

// The coefficients of a polynomial, which stand on a line behind a letter and a comma, written from a place on; where the next line starts.
fn polynomial(text: &[u8], at: usize, words: &mut [u32], place: usize, count: usize) -> usize {
    let mut room: Words = field::room();
    let read = first_mut(&mut room, count);
    if read.is_empty() {
        return at;
    }
    let start = at.wrapping_add(2);
    let end = place.wrapping_add(count);
    if archive::TEXT_LENGTH < text.len() || text.len() < start {
        return out_of_form(text, words, end);
    }
    let Some(next) = text::line(text, start, read) else {
        return out_of_form(text, words, end);
    };
    buffers::lay(read, words, place);
    next
}

// The transcript of a text: a, b, c, z and t; where the verdict stands behind them.
fn transcript(s: Shape, text: &[u8], words: &mut [u32]) -> usize {
    let n = s.n as usize;
    let e = circuits::blinding(s);
    let wire = circuit::wire_length(e, n);
    let z_at = circuits::TRANSCRIPT + circuit::z_start(e, n);
    let t_at = circuits::TRANSCRIPT + circuit::t_start(e, n);
    let b = polynomial(text, 0, words, circuits::TRANSCRIPT, wire);
    let c = polynomial(text, b, words, circuits::TRANSCRIPT + wire, wire);
    let z = polynomial(text, c, words, circuits::TRANSCRIPT + 2 * wire, wire);
    let t = polynomial(text, z, words, z_at, circuit::z_length(e, n));
    polynomial(text, t, words, t_at, circuit::quotient_length(e, n))
}

// Whether a text has this verdict at a place. There is none where the call was turned down.
fn is_due(text: &[u8], at: usize, r: Result<Judged, Refusal>) -> bool {
    match r {
        Ok(Judged::Accept) => says(text, at, b"accept\n"),
        Ok(Judged::Reject) => says(text, at, b"reject\n"),
        Err(_) => false,
    }
}

// What `deposit` prints for the sheet: a refusal of its prime, the text that was filed, or another one.
fn print_deposited(rt: HostRuntime, sheet: &[u8], filed: &[u8]) {
    let mut text: [u8; archive::TEXT_LENGTH] = field::room();
    let end = archive::deposit(sheet, &mut text).unwrap_or(0);
    let is_filed = first(&text, end) == filed;
    print::word(rt, b"deposit");
    if text.starts_with(b"refused,16,0\n") {
        print::word(rt, b"refused,16,0");
    } else {
        print::either(rt, is_filed, b"as filed", b"another text");
    }
}

// The line on the sheet as a new one: what the prover answers, what `deposit` prints, and what `join` answers where the sheet is joined to itself.
fn print_new(rt: HostRuntime, s: Shape, words: &Words, sheet: &[u8], filed: &[u8]) {
    let mut transcript: Words = field::room();
    let mut scratch: Words = field::room();
    let mut joined: [u8; joining::JOINED_ROOM] = field::room();
    let proved = circuits::prove(s, words, &mut transcript, &mut scratch);
    print::text(rt, b"as a new sheet");
    print::either(rt, s.blinded, b"prove_blinded", b"prove");
    print::answer(rt, &proved);
    print_deposited(rt, sheet, filed);
    let made = joining::join(sheet, sheet, &mut joined);
    print::word(rt, b"join");
    print::answer(rt, &made);
    print::text(rt, b"\n");
}

// The lines of a deposit, from p on. The filed verdict stands at a place of its text.
fn print_lines(rt: HostRuntime, s: Shape, words: &Words, sheet: &[u8], text: &[u8], at: usize) {
    let end = circuits::WITNESS + 3 * (s.n as usize);
    let r = circuits::point(s, words);
    print::numbers(rt, &[s.p, s.n, s.l]);
    circuits::print_judged(rt, r);
    print::either(rt, is_due(text, at, r), b"as filed", b"NOT AS FILED");
    circuits::print_points(rt, s, words);
    circuits::print_rows(rt, s, words);
    circuits::change_t(rt, s, words);
    print::heading(rt, b"last content changed", &[s.p, s.n, s.l]);
    circuits::print_rows(rt, s, &buffers::raised(s.p, *words, end));
    if 2 <= s.n {
        circuits::every_polynomial(rt, s, words);
    }
    print_new(rt, s, words, sheet, text);
}

// The numbers of a sheet; all 0 where it is turned down.
fn shape(found: Result<Sheet, Refusal>) -> Shape {
    match found {
        Ok(sheet) => Shape {
            p: sheet.p,
            n: sheet.n,
            l: sheet.l,
            blinded: sheet.blinded,
        },
        Err(_) => Shape {
            p: 0,
            n: 0,
            l: 0,
            blinded: false,
        },
    }
}

// The lines of a deposit, behind the sheet's name.
fn judge(rt: HostRuntime, sheet: &[u8], text: &[u8]) {
    let mut words: Words = field::room();
    let mut selectors = [0u32; 1280];
    let mut labels = [0u32; 768];
    let mut witness = [0u32; 768];
    let mut publics = [0u32; 256];
    let mut drawn = [0u32; sheet::DRAWN_COUNT];
    let found = sheet::read(
        sheet,
        &mut selectors,
        &mut labels,
        &mut witness,
        &mut publics,
        &mut drawn,
    );
    let s = shape(found);
    buffers::lay(&selectors, &mut words, 0);
    buffers::lay(&labels, &mut words, circuits::LABELS);
    buffers::lay(&witness, &mut words, circuits::WITNESS);
    buffers::lay(&publics, &mut words, circuits::PUBLICS);
    buffers::lay(&drawn, &mut words, circuits::CHALLENGES);
    let at = transcript(s, text, &mut words);
    print::answer(rt, &found);
    print_lines(rt, s, &circuits::prepared(s, &words), sheet, text, at);
}

// The same behind the sheet's name, which is argument i. None where that cannot be printed, or the text is longer than that of any deposit: it is told.
fn print_judged(rt: HostRuntime, i: usize, sheet: &[u8], text: &[u8]) -> Option<()> {
    if archive::TEXT_LENGTH < text.len() {
        streams::tell(rt, b"a text is longer than that of any deposit\n");
        return None;
    }
    let mut name = io::buffer();
    let n = streams::arg(rt, i, &mut name);
    streams::print(rt, &name[..n])?;
    judge(rt, sheet, text);
    Some(())
}

// The deposit whose sheet argument i names, and whose text the next one does. None where one of them cannot be read, or not be judged: what failed is
// told.
fn judge_filed(rt: HostRuntime, i: usize, next: usize) -> Option<()> {
    let mut sheet = sheet::sheet_room();
    let n = streams::read_file(rt, i, &mut sheet)?;
    let mut text = sheet::sheet_room();
    let m = streams::read_file(rt, next, &mut text)?;
    print_judged(rt, i, &sheet[..n], &text[..m])
}

fn main(rt: HostRuntime) {
    let end = streams::arg_count(rt);
    if end < 3 || end % 2 == 0 {
        streams::tell(
            rt,
            b"filed takes the names of two files for each deposit, its sheet and its text\n",
        );
        return;
    }
    // Deposits past the first 32,768 are not looked at.
    for k in 0..(end / 2).min(32768) {
        if judge_filed(rt, 2 * k + 1, 2 * k + 2).is_none() {
            return;
        }
    }
}
