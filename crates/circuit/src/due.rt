// The lengths due of a call's buffers, in the order in which they are counted; l is the number of public inputs.
ghost use Rattle.std.specs.Prelude.{◌≡◌, [], ◌∷◌, ◌++◌, ◌+◌, ◌<◌, ◌≤◌, length, take, replicate};
ghost use Rattle.circuit.specs.Reasons.{permutation_due, prepare_due, rows_due, point_due, prove_due};

use super::lengths;
use transform::scratch_length;

// `permutation`: labels, positions.
pub fn permutation(n: usize) -> [usize; 2]
    requires { n < 4294967296 }
    ensures { result ≡ permutation_due n }
{
    [lengths::labels_length(n), lengths::labels_length(n)]
}

// `prepare`: selectors, labels, prepared circuit, scratch.
pub fn prepare(n: usize) -> [usize; 4]
    requires { n < 4294967296 }
    ensures { result ≡ prepare_due n }
{
    [
        lengths::selectors_length(n),
        lengths::labels_length(n),
        lengths::prepared_length(n),
        scratch_length(n),
    ]
}

// `check_rows`: selectors, labels, witness, public inputs, row values of z, challenges.
pub fn rows(n: usize, l: usize) -> [usize; 6]
    requires { n < 4294967296 }
    ensures { result ≡ rows_due n l }
{
    [
        lengths::selectors_length(n),
        lengths::labels_length(n),
        lengths::witness_length(n),
        l,
        n,
        2,
    ]
}

// `check_point`: public inputs, prepared circuit, transcript, challenges, scratch.
pub fn point(e: usize, n: usize, l: usize) -> [usize; 5]
    requires { (e ≤ 1) × (n < 4294967296) }
    ensures { result ≡ point_due e n l }
{
    [
        l,
        lengths::prepared_length(n),
        lengths::transcript_length(e, n),
        4,
        lengths::work_length(e, n),
    ]
}

// What stands behind the challenges in a table of the prover's lengths: that of the blinders, or of the scratch where nothing is blinded.
pub fn behind(e: usize, blinders: usize, scratch: usize) -> usize
    requires { e ≤ 1 }
    ensures { take (1 + e) (result ∷ scratch ∷ []) ≡ replicate e blinders ++ (scratch ∷ []) }
{
    if e == 0 {
        return scratch;
    }
    blinders
}

// The lengths of a prover's table that count: all 8 for `prove_blinded`, and for `prove` one less.
pub fn counted(e: usize, table: &[usize]) -> &[usize]
    requires { (e ≤ 1) × (length table.now ≡ 8) }
    ensures { result.now ≡ take (7 + e) table.now }
{
    &table[..7 + e]
}

// `prove`, and `prove_blinded` where e is 1: selectors, labels, witness, public inputs, transcript, challenges, the blinders of the latter, scratch.
pub fn prove(e: usize, n: usize, l: usize) -> [usize; 8]
    requires { (e ≤ 1) × (n < 4294967296) }
    ensures { (take (7 + e) result ≡ prove_due e n l) × (length result ≡ 8) }
{
    let scratch = lengths::work_length(e, n);
    let next = behind(e, lengths::BLINDER_COUNT, scratch);
    [
        lengths::selectors_length(n),
        lengths::labels_length(n),
        lengths::witness_length(n),
        l,
        lengths::transcript_length(e, n),
        3,
        next,
        scratch,
    ]
}
