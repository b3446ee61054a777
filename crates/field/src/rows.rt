// The domain of a circuit's rows: the prime, the number of rows and the points, made once and lent on by reference, as it has room for 1,024 points.
ghost use Rattle.std.specs.Prelude.{◌≡◌, ◌<◌, take};
ghost use Rattle.algebra.specs.Lists.{tab};
ghost use Rattle.field.specs.Fields.{Admissible, point};

use super::rooms::{ROWS_ROOM, room};
use super::table;

// p, an admissible number of rows n, and the n domain points, at the start of an array.
#[derive(Drop)]
pub struct Domain {
    pub p: u32,
    pub n: u32,
    table: [u32; ROWS_ROOM],
    pub ghost admissible: { Admissible p n },
    ghost laid: { take n table ≡ tab (point p n) n },
}

impl Domain {
    pub fn new(p: u32, n: u32) -> Self
        requires { Admissible p n }
        ensures { (result.p ≡ p) × (result.n ≡ n) }
    {
        let mut table: [u32; ROWS_ROOM] = room();
        table::points(p, n, &mut table[..n as usize]);
        Domain { p, n, table }
    }

    // The n domain points.
    pub fn points(&self) -> &[u32]
        ensures { result.now ≡ tab (point self.now.p self.now.n) self.now.n }
    {
        &self.table[..self.n as usize]
    }

    // The domain point of a row.
    pub fn point(&self, row: usize) -> u32
        requires { row < self.now.n }
        ensures { result ≡ point self.now.p self.now.n row }
    {
        self.table[row]
    }
}
