// A test of ranges, rows of sixteen, the first index at which a test holds, and whole sums.
#![tactic(auto)]

ghost use Rattle.std.specs.Prelude.{◌≡◌, ℕ, ◌+◌, ◌<◌, Bool, min, set};
ghost use Rattle.numbers.specs.Bounds.{outside as outside_of};
ghost use Rattle.numbers.specs.First.{first, found};
ghost use Rattle.numbers.specs.Rows.{row};
ghost use Rattle.numbers.specs.Calls.{Tells};

// Whether `x` lies outside `lo` to `hi`.
pub fn outside(lo: u64, hi: u64, x: u64) -> bool
    ensures { result ≡ outside_of lo hi x }
{
    (x < lo) | (hi < x)
}

// The row with entry `k` changed; an index past the end changes nothing.
pub fn with_entry<T: Copy>(mut row: [T; 16], k: usize, x: T) -> [T; 16]
    ensures { result ≡ set row k x }
{
    if k < 16 {
        row[k] = x;
    }
    row
}

// A row of sixteen: what `entry` gives below n, and `zero` from there on.
pub fn row<T: Copy, F: Fn(usize) -> T>(zero: T, n: usize, entry: F) -> [T; 16]
    requires { (k : ℕ) → k < n → k < 16 → F.pre entry k }
    ensures { (f : ℕ → T) → Tells (min n 16) (F.post entry) f → result ≡ row zero n f }
{
    let mut entries = [zero; 16];
    for k in 0..at_most_sixteen(n) {
        entries[k] = entry(k);
    }
    entries
}

// The first of n indices at which a test holds, counted from 1.
pub fn first<F: Fn(usize) -> bool>(n: usize, test: F) -> Option<usize>
    requires { (k : ℕ) → k < n → F.pre test k }
    ensures { (p : ℕ → Bool) → Tells n (F.post test) p → result ≡ found (first p n) }
{
    for k in 0..n {
        if test(k) {
            return Some(k + 1);
        }
    }
    None
}

// The smaller of n and sixteen.
pub fn at_most_sixteen(n: usize) -> usize
    ensures { result ≡ min n 16 }
{
    if n < 16 { n } else { 16 }
}

// The whole sum.
pub fn sum(a: u32, b: u32) -> u64
    ensures { result ≡ a + b }
{
    (a as u64) + (b as u64)
}
