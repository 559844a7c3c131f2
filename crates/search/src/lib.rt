// The search: what the walk is given beside the demands is computed, then the walk is made.
#![tactic(auto)]

ghost use Rattle.std.specs.Prelude.{◌≡◌, take};
ghost use Rattle.allocation.specs.Placement.{problem_of};
ghost use Rattle.allocation.specs.Walk.{answer};
ghost use Rattle.walk.specs.Given.{Ranges, found_of};

use walk::Found;

// The walk over n demands and core bytes in planning order, on m cores and the hyperperiod h, in at most `limit` steps.
pub fn search(
    demands: [u32; 16],
    affinity: [u8; 16],
    n: usize,
    m: usize,
    h: u32,
    limit: u32,
) -> Found
    requires { Ranges demands n m h }
    ensures { result ≡ found_of (answer (problem_of h m (take n demands) (take n affinity)) limit) }
{
    let total = outset::total_demand(demands, n);
    let excess = outset::excess_of(total, m, h);
    let twins = outset::twin_rows(affinity, n);
    walk::walk(
        demands, affinity, twins, n, m as u32, h, total, excess, limit,
    )
}
