// The tags of all 3n positions, each at the start of an array, for a caller that lends them on.
ghost use Rattle.std.specs.Prelude.{◌≡◌, ◌*◌, ◌<◌, ◌≤◌, length, get_or, take};
ghost use Rattle.algebra.specs.Lists.{tab};
ghost use Rattle.field.specs.Fields.{tag};
ghost use Rattle.field.specs.Rooms.{positions_room};
ghost use Rattle.circuit.specs.Circuit.{permutation};
ghost use Rattle.circuit.specs.Buffers.{labels_length};
ghost use Rattle.circuit.specs.Ahead.{Labels};

use field::rows::Domain;

// The positions from 0 on.
fn lay_positions(out: &mut [u32])
    requires { length out.old < 4294967296 }
    ensures { out.new ≡ tab (λ k. k) (length out.old) }
{
    for (k, word) in out.iter_mut().enumerate() {
        *word = k as u32;
    }
}

// The tags of the positions from 0 on.
fn lay_tags(domain: &Domain, out: &mut [u32])
    requires { length out.old < 4294967296 }
    ensures { out.new ≡ tab (tag domain.now.p domain.now.n) (length out.old) }
{
    lay_positions(out);
    circuit::tags_in_place(domain, out);
}

// The tags of the positions.
pub fn own(domain: &Domain) -> [u32; field::POSITIONS_ROOM]
    ensures room { positions_room ≡ length result }
    ensures fits { 3 * domain.now.n ≤ length result }
    ensures tags { take (3 * domain.now.n) result ≡ tab (tag domain.now.p domain.now.n) (3 * domain.now.n) }
{
    let mut tags = [0; field::POSITIONS_ROOM];
    let k = 3 * domain.n as usize;
    lay_tags(domain, &mut tags[..k]);
    tags
}

// The tags of the positions that the permutation leads to. It is not inlined, so that the permutation's array does not stay on the stack of its callers.
#[inline(never)]
pub fn wired(domain: &Domain, labels: &[u32]) -> [u32; field::POSITIONS_ROOM]
    requires { Labels labels.now × (length labels.now ≡ labels_length domain.now.n) }
    ensures fits { 3 * domain.now.n ≤ length result }
    ensures tags { take (3 * domain.now.n) result ≡ tab (λ k. tag domain.now.p domain.now.n (permutation (3 * domain.now.n) (λ j. get_or labels.now j 0) k)) (3 * domain.now.n) }
{
    let mut tags = [0; field::POSITIONS_ROOM];
    let k = 3 * domain.n as usize;
    circuit::wired_tags(domain, labels, &mut tags[..k]);
    tags
}
