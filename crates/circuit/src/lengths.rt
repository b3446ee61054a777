// How many numbers the lent buffers have for n rows, and where the polynomials start in them. The number e is 1 where the transcript is blinded, else 0. (The
// scratch of the transforms and of `prepare` has its length in `transform`.)
// e stays a number: the lengths are counted with it, here and in the definitions (`wire_length e n`). Columns and polynomials stay numbers: document 01 and C have them so.
ghost use Rattle.std.specs.Prelude.{◌≡◌, ◌<◌, ◌≤◌, length};
ghost use Rattle.circuit.specs.Buffers.{prepared_count, selectors_length, labels_length, witness_length, prepared_length, wire_length, z_length, quotient_length, f_length, transcript_length, opening_length, work_length, blinded_by, prepared_start, wire_start, z_start, t_start};

// The selectors of a row.
pub const SELECTOR_COUNT: usize = 5;

// The polynomials of a prepared circuit.
pub const PREPARED_COUNT: usize = 8;

// Which of them is the first of the wired tags.
pub const WIRED_NUMBER: usize = 5;

// The number of the first wire; the numbers below it are polynomials of a prepared circuit.
pub const WIRE_NUMBER: u32 = 8;

// The number before it.
pub const PREPARED_LAST: u32 = WIRE_NUMBER - 1;

// The number of z.
pub const Z_NUMBER: u32 = 11;

// The number of the last wire.
pub const WIRE_LAST: u32 = Z_NUMBER - 1;

// The number of t.
pub const T_NUMBER: u32 = 12;

// How many polynomials have a number: the numbers are those below it.
pub const POLYNOMIAL_COUNT: usize = 13;

// The numbers that blind a transcript: two for each wire, three for z.
pub const BLINDER_COUNT: usize = 9;

// The coefficients of a prepared circuit of the greatest number of rows.
pub const PREPARED_ROOM: usize = PREPARED_COUNT * field::ROWS_ROOM;

pub fn selectors_length(n: usize) -> usize
    requires { n < 4294967296 }
    ensures { result ≡ selectors_length n }
{
    SELECTOR_COUNT * n
}

// Of the labels: one for each position.
pub fn labels_length(n: usize) -> usize
    requires { n < 4294967296 }
    ensures { result ≡ labels_length n }
{
    3 * n
}

// Of the witness: a wire value for each position. That it is as long as the labels is how it is lent, and no law of theirs.
pub fn witness_length(n: usize) -> usize
    requires { n < 4294967296 }
    ensures { result ≡ witness_length n }
{
    3 * n
}

pub fn prepared_length(n: usize) -> usize
    requires { n < 4294967296 }
    ensures { result ≡ prepared_length n }
{
    PREPARED_COUNT * n
}

// The coefficients of a wire.
pub fn wire_length(e: usize, n: usize) -> usize
    requires { (e ≤ 1) × (n < 4294967296) }
    ensures { result ≡ wire_length e n }
{
    n + 2 * e
}

// The coefficients of z.
pub fn z_length(e: usize, n: usize) -> usize
    requires { (e ≤ 1) × (n < 4294967296) }
    ensures { result ≡ z_length e n }
{
    n + 3 * e
}

// The coefficients of t: 3n - 3 + 9e. No call works on 0 rows, but a length is asked for before n is known to be right.
pub fn quotient_length(e: usize, n: usize) -> usize
    requires { (e ≤ 1) × (n < 4294967296) }
    ensures { result ≡ quotient_length e n }
{
    (3 * n).saturating_sub(3) + 9 * e
}

// The coefficients of F: n more than t has.
pub fn f_length(e: usize, n: usize) -> usize
    requires { (e ≤ 1) × (n < 4294967296) }
    ensures { result ≡ f_length e n }
{
    n + quotient_length(e, n)
}

// The coefficients of an opening polynomial: one less than t has.
pub fn opening_length(e: usize, n: usize) -> usize
    requires { (e ≤ 1) × (n < 4294967296) }
    ensures { result ≡ opening_length e n }
{
    quotient_length(e, n).saturating_sub(1)
}

// Where polynomial s of a prepared circuit starts.
pub fn prepared_start(n: usize, s: usize) -> usize
    requires { (n < 4294967296) × (s < prepared_count) }
    ensures { result ≡ prepared_start n s }
{
    s * n
}

// Where the wire of a column starts in a transcript.
pub fn wire_start(e: usize, n: usize, column: usize) -> usize
    requires { (e ≤ 1) × (n < 4294967296) × (column < 3) }
    ensures { result ≡ wire_start e n column }
{
    column * wire_length(e, n)
}

// Where z starts in a transcript.
pub fn z_start(e: usize, n: usize) -> usize
    requires { (e ≤ 1) × (n < 4294967296) }
    ensures { result ≡ z_start e n }
{
    3 * wire_length(e, n)
}

// Where t starts in a transcript.
pub fn t_start(e: usize, n: usize) -> usize
    requires { (e ≤ 1) × (n < 4294967296) }
    ensures { result ≡ t_start e n }
{
    z_start(e, n) + z_length(e, n)
}

pub fn transcript_length(e: usize, n: usize) -> usize
    requires { (e ≤ 1) × (n < 4294967296) }
    ensures { result ≡ transcript_length e n }
{
    t_start(e, n) + quotient_length(e, n)
}

// The scratch of a call that lays a transcript, or is lent one.
pub fn work_length(e: usize, n: usize) -> usize
    requires { (e ≤ 1) × (n < 4294967296) }
    ensures { result ≡ work_length e n }
{
    transform::scratch_length(n) + 64 * e
}

// Whether a lent transcript is blinded, as the number e: its length alone decides.
pub fn blinded_by(n: usize, transcript: &[u32]) -> usize
    requires { n < 4294967296 }
    ensures { (result ≡ blinded_by n transcript.now) × (result ≤ 1) }
{
    usize::from(transcript.len() == transcript_length(1, n))
}
