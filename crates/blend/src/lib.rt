// The cores' loads with one of them changed: each entry is written, by its own test in the entries' own width, which the compiler makes a few
// operations on all entries at once.
#![tactic(auto)]

ghost use Rattle.std.specs.Prelude.{◌≡◌, cond, ◌∷◌, ℕ, ◌+◌, ◌-◌, ◌<◌, ◌≤◌, get_or};
ghost use Rattle.blend.specs.Entry.{on_core};

// x where a test holds, and y otherwise. A call of its own, which the compiler makes an operation without a branch: with the `if` written into
// the loops it makes a jump for each entry, and the search is half as fast.
pub fn pick<T: Copy>(test: bool, x: T, y: T) -> T
    ensures { result ≡ cond test x y }
{
    if test { x } else { y }
}

// The cores' loads, core 1 first, with demand d more on core c; choice 0 is no core. Four entries, and no fifth for what
// is rejected: so they are one aligned value of sixteen bytes, wherever the stack stands.
pub fn with_more(mut loads: [u32; 4], c: u32, d: u32) -> [u32; 4]
    requires { (c < 5) × ((k : ℕ) → get_or loads k 0 + d < 4294967296) }
    ensures { result ≡ on_core (λ x. x + d) loads c }
{
    for k in 0..4u32 {
        loads[k as usize] += pick(c == k + 1, d, 0);
    }
    loads
}

// The same with demand d less.
pub fn with_less(mut loads: [u32; 4], c: u32, d: u32) -> [u32; 4]
    requires { (c < 5) × (d ≤ get_or (d ∷ loads) c 0) }
    ensures { result ≡ on_core (λ x. x - d) loads c }
{
    for k in 0..4u32 {
        loads[k as usize] -= pick(c == k + 1, d, 0);
    }
    loads
}
