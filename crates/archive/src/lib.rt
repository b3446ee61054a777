// A deposit: sheet bytes in, printed bytes out. The number e is 1 where the transcript is blinded, else 0.
//
// The public call is `deposit`. It lends the sheet's numbers on from arrays of its own, which have room for 256 rows.
#![tactic(auto)]

ghost use Rattle.std.specs.Prelude.{◌≡◌, true, ◌*◌, ◌≤◌, length, take, drop};
ghost use Rattle.field.specs.Fields.{is_current};
ghost use Rattle.field.specs.Reasons.{outcome};
ghost use Rattle.circuit.specs.Buffers.{blinder_count, selectors_length, labels_length, witness_length};
ghost use Rattle.text.specs.Puts.{Puts};
ghost use Rattle.sheet.specs.Sheet.{challenge_count, drawn_count, sheet_p};
ghost use Rattle.archive.specs.Deposit.{deposit_text, Deposits};
ghost use Rattle.archive.specs.Printed.{text_length, work_text};
ghost use Rattle.archive.specs.Work.{Workable};

use field::Refusal;
use lines::put_refusal;

mod lines;
mod rooms;
mod work;

pub use rooms::TEXT_LENGTH;

// The text of a sheet's numbers, which stand at the start of buffers with room for more; the blinders, 9e of them, stand behind the challenges.
fn print_read(
    e: usize,
    p: u32,
    n: u32,
    l: u32,
    selectors: &[u32],
    labels: &[u32],
    witness: &[u32],
    publics: &[u32],
    drawn: &[u32],
    text: &mut [u8],
) -> usize
    requires workable { Workable e p n (take challenge_count drawn.now) (take (blinder_count * e) (drop challenge_count drawn.now)) text.old × (length drawn.now ≡ drawn_count) }
    requires n_in_bounds { (selectors_length n ≤ length selectors.now) × (labels_length n ≤ length labels.now) × (witness_length n ≤ length witness.now) × (l ≤ length publics.now) }
    ensures { Puts 0 (work_text e p n l (take (selectors_length n) selectors.now) (take (labels_length n) labels.now) (take (witness_length n) witness.now) (take l publics.now) (take challenge_count drawn.now) (take (blinder_count * e) (drop challenge_count drawn.now))) text.old result text.new }
{
    let m = n as usize;
    let selectors_end = circuit::selectors_length(m);
    let labels_end = circuit::labels_length(m);
    let witness_end = circuit::witness_length(m);
    let publics_end = l as usize;
    let four = sheet::CHALLENGE_COUNT;
    let last = four + circuit::BLINDER_COUNT * e;
    work::print_work(
        e,
        p,
        n,
        l,
        &selectors[..selectors_end],
        &labels[..labels_end],
        &witness[..witness_end],
        &publics[..publics_end],
        &drawn[..four],
        &drawn[four..last],
        text,
    )
}

// The text of a sheet whose prime may be proved with, at the buffer's start: why it cannot be read, or the text of its numbers.
fn print_current(sheet: &[u8], text: &mut [u8]) -> usize
    requires { (length text.old ≡ text_length) × (is_current (sheet_p sheet.now) ≡ true) }
    ensures { Puts 0 (deposit_text sheet.now) text.old result text.new }
{
    let mut selectors: [u32; rooms::SELECTORS] = field::room();
    let mut labels: [u32; rooms::POSITIONS] = field::room();
    let mut witness: [u32; rooms::POSITIONS] = field::room();
    let mut publics: [u32; rooms::PUBLICS] = field::room();
    let mut drawn: [u32; sheet::DRAWN_COUNT] = field::room();
    let read = sheet::read(
        sheet,
        &mut selectors,
        &mut labels,
        &mut witness,
        &mut publics,
        &mut drawn,
    );
    match read {
        Ok(found) => print_read(
            sheet::blinder_lines(found.blinded),
            found.p,
            found.n,
            found.l,
            &selectors,
            &labels,
            &witness,
            &publics,
            &drawn,
            text,
        ),
        Err(refusal) => put_refusal(refusal, text),
    }
}

// The text of a sheet, at the buffer's start. What its first line tells of its prime is looked at before all that stands behind it.
fn print_sheet(sheet: &[u8], text: &mut [u8]) -> usize
    requires { length text.old ≡ text_length }
    ensures { Puts 0 (deposit_text sheet.now) text.old result text.new }
{
    match sheet::decide_prime(sheet) {
        Ok(()) => print_current(sheet, text),
        Err(refusal) => put_refusal(refusal, text),
    }
}

// The text of a sheet and zeros behind it, in a buffer of the text's length; how many bytes of the buffer are text. A sheet that is refused has a text too.
pub fn deposit(sheet: &[u8], text: &mut [u8]) -> Result<usize, Refusal>
    ensures { Deposits sheet.now text.old (outcome result) text.new }
{
    let long = [sheet.len(), text.len()];
    let due = [sheet.len(), TEXT_LENGTH];
    field::decide_lengths(&long, &due)?;
    let end = print_sheet(sheet, text);
    text[end..].fill(0);
    Ok(end)
}
