// The different numbers of a list, counted where each stands for the last time.
//
// Equal numbers have one bucket, the remainder by how many numbers there are. The buckets are labels, so the copy permutation leads from each number to
// the next of its bucket, and a number is compared with the later ones of its bucket only.
ghost use Rattle.std.specs.Prelude.{◌≡◌, suc, ◌≤◌, ◌<◌, length, get_or, drop};
ghost use Rattle.algebra.specs.Lists.{occurs, different};
ghost use Rattle.losses.specs.Buckets.{buckets_of, Linked};

// The bucket of each number.
fn fill_buckets(numbers: &[u32], buckets: &mut [u32])
    requires { (length numbers.now ≤ 3072) × (length buckets.old ≡ length numbers.now) }
    ensures { buckets.new ≡ buckets_of numbers.now }
{
    let m = numbers.len() as u32;
    for k in 0..buckets.len() {
        buckets[k] = numbers[k] % m;
    }
}

// Number k stands again behind itself. `next` leads on in its bucket, from the last to the first.
fn again(numbers: &[u32], next: &[u32], k: usize) -> bool
    requires { Linked numbers.now next.now × (k < length numbers.now) }
    ensures { result ≡ occurs (get_or numbers.now k 0) (drop (suc k) numbers.now) }
{
    let mut j = k;
    let mut i = next[k] as usize;
    while j < i {
        if numbers[i] == numbers[k] {
            return true;
        }
        j = i;
        i = next[j] as usize;
    }
    false
}

// How many numbers do not stand again behind themselves.
fn count_last(numbers: &[u32], next: &[u32]) -> u32
    requires { Linked numbers.now next.now }
    ensures { result ≡ different numbers.now }
{
    let mut count: u32 = 0;
    for k in (0..numbers.len()).rev() {
        if !again(numbers, next, k) {
            count += 1;
        }
    }
    count
}

// How many different numbers there are.
#[inline(never)]
pub fn count_different(numbers: &[u32]) -> u32
    requires { length numbers.now ≤ 3072 }
    ensures { result ≡ different numbers.now }
{
    let m = numbers.len();
    let mut buckets: [u32; field::POSITIONS_ROOM] = field::room();
    let mut next: [u32; field::POSITIONS_ROOM] = field::room();
    fill_buckets(numbers, &mut buckets[..m]);
    circuit::fill_permutation(&buckets[..m], &mut next[..m]);
    count_last(numbers, &next[..m])
}
