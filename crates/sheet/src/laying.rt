// Numbers of the table in the order in which they are lent, block by block.
ghost use Rattle.std.specs.Prelude.{◌≡◌, cond, ◌+◌, ◌≤◌, ◌<◌, ltb, length};
ghost use Rattle.algebra.specs.Lists.{tab};
ghost use Rattle.field.specs.Reasons.{first_above};
ghost use Rattle.circuit.specs.Buffers.{selectors_length, labels_length, witness_length};
ghost use Rattle.sheet.specs.Sheet.{sheet_rows, drawn_count, padded};
ghost use Rattle.sheet.specs.Table.{in_table, selectors_in, labels_in, witness_in, publics_in, table_drawn, Fits, Full, Room, Laid};

use super::blocks;
use super::blocks::Block;

// Number k of a block; 0 behind its end.
fn word(table: &[u32], block: Block, k: usize) -> u32
    requires { Fits table.now block }
    ensures { result ≡ cond (ltb k block.count) (in_table table.now block k) 0 }
{
    if k < block.count {
        table[block.start + block.step * (k % block.run) + block.leap * (k / block.run)]
    } else {
        0
    }
}

// The place of the first number of a block that is p or more; the block's count where there is none.
pub fn above(p: u32, table: &[u32], block: Block) -> usize
    requires { Fits table.now block }
    ensures { result ≡ first_above p (tab (in_table table.now block) block.count) }
{
    for k in 0..block.count {
        if p <= word(table, block, k) {
            return k;
        }
    }
    block.count
}

// The same of blocks end to end: `long` numbers have been passed, of which `at` was the answer, and a block follows.
pub fn then_above(p: u32, at: usize, long: usize, table: &[u32], block: Block) -> usize
    requires { Fits table.now block × (long + block.count < 4294967296) }
    ensures { result ≡ cond (ltb at long) at (long + first_above p (tab (in_table table.now block) block.count)) }
{
    if at < long {
        return at;
    }
    long + above(p, table, block)
}

// A block laid at the start of `out`, zeros behind.
fn lay(table: &[u32], block: Block, out: &mut [u32])
    requires fits { Fits table.now block }
    requires count_in_bounds { block.count ≤ length out.old }
    ensures { out.new ≡ padded (length out.old) (in_table table.now block) block.count }
{
    for k in 0..out.len() {
        out[k] = word(table, block, k);
    }
}

// The circuit: selectors and labels.
fn lay_circuit(table: &[u32], n: usize, selectors: &mut [u32], labels: &mut [u32])
    requires { Full n 0 table.now × (length selectors.old ≡ selectors_length sheet_rows) × (length labels.old ≡ labels_length sheet_rows) }
    ensures selectors_after { selectors.new ≡ padded (selectors_length sheet_rows) (selectors_in table.now n) (selectors_length n) }
    ensures labels_after { labels.new ≡ padded (labels_length sheet_rows) (labels_in table.now n) (labels_length n) }
{
    lay(table, blocks::selectors(n), selectors);
    lay(table, blocks::labels(n), labels);
}

// Challenges, and behind them the blinders, e lines of them, 0 or 1.
fn lay_drawn(table: &[u32], e: usize, n: usize, l: usize, out: &mut [u32])
    requires { Full n l table.now × (e ≤ 1) × (length out.old ≡ drawn_count) }
    ensures { out.new ≡ table_drawn e n l table.now }
{
    lay(
        table,
        blocks::challenges(n, l),
        &mut out[..super::CHALLENGE_COUNT],
    );
    lay(
        table,
        blocks::blinders(e, n, l),
        &mut out[super::CHALLENGE_COUNT..],
    );
}

// What the circuit is filled with: witness, public inputs, and challenges with the blinders.
fn lay_filling(
    table: &[u32],
    e: usize,
    n: usize,
    l: usize,
    witness: &mut [u32],
    publics: &mut [u32],
    challenges: &mut [u32],
)
    requires { Full n l table.now × (e ≤ 1) × (length witness.old ≡ witness_length sheet_rows) × (length publics.old ≡ sheet_rows) × (length challenges.old ≡ drawn_count) }
    ensures witness_after { witness.new ≡ padded (witness_length sheet_rows) (witness_in table.now n) (witness_length n) }
    ensures publics_after { publics.new ≡ padded sheet_rows (publics_in table.now n l) l }
    ensures challenges_after { challenges.new ≡ table_drawn e n l table.now }
{
    lay(table, blocks::witness(n), witness);
    lay(table, blocks::publics(n, l), publics);
    lay_drawn(table, e, n, l, challenges);
}

// All five buffers.
pub fn lay_out(
    table: &[u32],
    e: usize,
    n: usize,
    l: usize,
    selectors: &mut [u32],
    labels: &mut [u32],
    witness: &mut [u32],
    publics: &mut [u32],
    challenges: &mut [u32],
)
    requires { Full n l table.now × (e ≤ 1) × Room selectors.old labels.old witness.old publics.old challenges.old }
    ensures { Laid e n l table.now selectors.new labels.new witness.new publics.new challenges.new }
{
    lay_circuit(table, n, selectors, labels);
    lay_filling(table, e, n, l, witness, publics, challenges);
}
