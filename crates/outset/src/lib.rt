// What the walk starts from: which cores are twins, the total demand, and what the cores cannot hold of it.
#![tactic(auto)]

ghost use Rattle.std.specs.Prelude.{◌≡◌, ℕ, ◌+◌, ◌*◌, ◌-◌, ◌<◌, ◌≤◌, get_or, take};
ghost use Rattle.std.specs.Bool.{xor};
ghost use Rattle.numbers.specs.Loads.{sum};
ghost use Rattle.affinity.specs.Permitted.{permitted};
ghost use Rattle.allocation.specs.Rule.{twins};
ghost use Rattle.outset.specs.Twins.{twin_rows};

// Whether a task with this core byte permits one of two cores alone, each the core after so many others.
fn tells_apart(byte: u8, c: u32, d: u32) -> bool
    requires { (c < 4) × (d < 4) }
    ensures { result ≡ xor (permitted byte (c + 1)) (permitted byte (d + 1)) }
{
    affinity::permits(byte, c) != affinity::permits(byte, d)
}

// Whether two cores are twins: none of n tasks tells them apart.
fn are_twins(affinity: [u8; 16], n: usize, c: u32, d: u32) -> bool
    requires { (n ≤ 16) × (c < 4) × (d < 4) }
    ensures { result ≡ twins affinity n (c + 1) (d + 1) }
{
    numbers::first(n, |k| tells_apart(affinity[k], c, d)).is_none()
}

// Which cores are twins: entry 4 * c + d is whether those after c and d others are. Made once, before the walk.
pub fn twin_rows(affinity: [u8; 16], n: usize) -> [bool; 16]
    requires { n ≤ 16 }
    ensures { result ≡ twin_rows affinity n }
{
    numbers::row(
        false,
        16,
        |i| are_twins(affinity, n, (i / 4) as u32, (i % 4) as u32),
    )
}

// The sum of the first n demands.
pub fn total_demand(demands: [u32; 16], n: usize) -> u32
    requires { (n ≤ 16) × ((k : ℕ) → get_or demands k 0 ≤ 1000000) }
    ensures { result ≡ sum (take n demands) }
{
    let mut total: u32 = 0;
    for demand in &demands[..n] {
        total += *demand;
    }
    total
}

// What m cores cannot hold of a total demand.
pub fn excess_of(total: u32, m: usize, h: u32) -> u32
    requires { (m ≤ 4) × (h ≤ 1000000) }
    ensures { result ≡ total - m * h }
{
    let room = (m as u32) * h;
    total.saturating_sub(room)
}
