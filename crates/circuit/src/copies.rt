// The copy permutation in linear time: the positions are passed downward twice, with a slot for each label.
ghost use Rattle.std.specs.Prelude.{◌≡◌, ◌<◌, ◌≤◌, length, get_or};
ghost use Rattle.algebra.specs.Lists.{tab};
ghost use Rattle.circuit.specs.Circuit.{permutation};
ghost use Rattle.circuit.specs.Ahead.{Ahead, Labels};

use std::mem;

// The first pass: each label's slot gets its lowest position, as the last that is put there.
pub fn lowest(labels: &[u32], slots: &mut [u32])
    requires { Labels labels.now × (length labels.now ≤ length slots.old) }
    ensures { Ahead labels.now (length labels.now) slots.new }
{
    for k in (0..labels.len()).rev() {
        slots[labels[k] as usize] = k as u32;
    }
}

// The second pass: a position leads to what its label's slot holds, and is then the one that the slot holds.
fn follow(labels: &[u32], slots: &mut [u32], out: &mut [u32])
    requires labels { Labels labels.now × (length labels.now ≤ length slots.old) × (length out.old ≡ length labels.now) }
    requires ahead { Ahead labels.now (length labels.now) slots.old }
    ensures { out.new ≡ tab (permutation (length labels.now) (λ k. get_or labels.now k 0)) (length labels.now) }
{
    for k in (0..labels.len()).rev() {
        out[k] = mem::replace(&mut slots[labels[k] as usize], k as u32);
    }
}

// Where the permutation leads from each position.
pub fn fill_permutation(labels: &[u32], out: &mut [u32])
    requires { Labels labels.now × (length out.old ≡ length labels.now) }
    ensures { out.new ≡ tab (permutation (length labels.now) (λ k. get_or labels.now k 0)) (length labels.now) }
{
    let mut slots: [u32; field::POSITIONS_ROOM] = field::room();
    lowest(labels, &mut slots);
    follow(labels, &mut slots, out);
}
