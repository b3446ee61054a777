// Arrays for a caller that lends parts of them on, by what they have room for at the greatest number of rows, 1,024. What they hold does not matter.
// Those of polynomials have room for blinded ones too (document 02, request 9).
// Stays with arrays of a fixed size, whose start is lent: a call takes no memory from a heap, which is a rule of the project.
ghost use Rattle.std.specs.Prelude.{◌≡◌, length};

pub const ROWS_ROOM: usize = 1024;

pub const POSITIONS_ROOM: usize = 3 * ROWS_ROOM;

pub const WIRE_ROOM: usize = ROWS_ROOM + 3;

pub const PAIR_ROOM: usize = 2 * ROWS_ROOM + 3;

pub const PRODUCT_ROOM: usize = 3 * ROWS_ROOM + 6;

pub const DOMAIN_ROOM: usize = 8192;

// An array with room for N numbers, words or bytes.
pub fn room<T: Copy + Default, const N: usize>() -> [T; N]
    ensures { N ≡ length result }
{
    [T::default(); N]
}
