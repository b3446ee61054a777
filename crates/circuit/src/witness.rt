// The witness, read in one place, and numbers laid as it is lent.
ghost use Rattle.std.specs.Prelude.{◌≡◌, ◌*◌, ◌<◌, ◌≤◌, length, get_or};
ghost use Rattle.algebra.specs.Lists.{tab};
ghost use Rattle.circuit.specs.Circuit.{position, lent_witness, laid_witness};
ghost use Rattle.circuit.specs.Buffers.{witness_length};

// The wire value of a column and a row, of n rows: the witness is lent row by row.
pub fn wire_value(n: usize, witness: &[u32], column: usize, row: usize) -> u32
    requires { (n ≤ 1024) × (column < 3) × (row < n) × (length witness.now ≡ witness_length n) }
    ensures { result ≡ lent_witness n witness.now (position n column row) }
{
    witness[3 * row + column]
}

// The wire values of the 3n positions, in their order.
pub fn wire_values(n: usize, witness: &[u32], out: &mut [u32])
    requires { (n ≤ 1024) × (length witness.now ≡ witness_length n) × (length out.old ≡ 3 * n) }
    ensures { out.new ≡ tab (lent_witness n witness.now) (3 * n) }
{
    for (k, word) in out.iter_mut().enumerate() {
        *word = wire_value(n, witness, k / n, k % n);
    }
}

// The wire values of a column, one for each row.
// Stays beside `wire_values`, which is over positions: as three calls of this one, with three parts of `out`, it would be no plainer.
pub fn column_values(n: usize, witness: &[u32], column: usize, out: &mut [u32])
    requires { (n ≤ 1024) × (column < 3) × (length witness.now ≡ witness_length n) × (length out.old ≡ n) }
    ensures { out.new ≡ tab (λ i. lent_witness n witness.now (position n column i)) n }
{
    for (i, word) in out.iter_mut().enumerate() {
        *word = wire_value(n, witness, column, i);
    }
}

// A number for each of the 3n positions, in their order, laid row by row, as a witness is lent: place j holds column j % 3 of row j / 3.
pub fn lay_by_rows(n: usize, values: &[u32], out: &mut [u32])
    requires { (n ≤ 1024) × (length values.now ≡ witness_length n) × (length out.old ≡ witness_length n) }
    ensures { out.new ≡ laid_witness n (λ k. get_or values.now k 0) }
{
    for (j, word) in out.iter_mut().enumerate() {
        *word = values[(j % 3) * n + j / 3];
    }
}
