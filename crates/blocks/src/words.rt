// Words of a buffer: what every test program does with them.
ghost use Rattle.std.specs.Prelude.{◌≡◌, length, min, take};

// The first of the marks, which go upward: numbers that no result has, since they are above every prime.
pub const MARK: u32 = 3000000000;

// The first n elements, or all where there are fewer.
pub fn first<T>(xs: &[T], n: usize) -> &[T]
    ensures value { result.now ≡ take n xs.now }
    ensures len { length result.now ≡ min n (length xs.now) }
{
    &xs[..n.min(xs.len())]
}

// The same, to be written.
pub fn first_mut<T>(xs: &mut [T], n: usize) -> &mut [T]
    ensures value { result.now ≡ take n xs.old }
    ensures len { length result.now ≡ min n (length xs.old) }
{
    let k = n.min(xs.len());
    &mut xs[..k]
}

// x at a place, where the buffer has that place.
pub fn put(xs: &mut [u32], place: usize, x: u32) {
    if place < xs.len() {
        xs[place] = x;
    }
}

// Numbers from `first` on, each `step` more than the one before.
pub fn progression(xs: &mut [u32], first: u32, step: u32) {
    let mut next = first;
    for x in xs {
        *x = next;
        next = next.wrapping_add(step);
    }
}
