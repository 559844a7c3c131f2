// First fit, on demands in planning order: each task on the lowest permitted core where it still fits, or left out.
#![tactic(auto)]

ghost use Rattle.std.specs.Prelude.{◌≡◌, ◌≤◌, take};
ghost use Rattle.numbers.specs.First.{first};
ghost use Rattle.allocation.specs.Placement.{problem_of};
ghost use Rattle.walk.specs.Given.{Ranges, found_of};
ghost use Rattle.firstfit.specs.Fit.{holds, fit_answer};

use walk::Found;

// The lowest of m cores that a task's core byte permits and that holds its demand d beside its load; 0 if none does.
fn lowest_core(loads: [u32; 4], byte: u8, d: u32, m: usize, h: u32) -> usize
    requires { (m ≤ 4) × (d ≤ h) }
    ensures { result ≡ first (holds loads byte d h) m }
{
    numbers::first(m, |k| branch::has_room(byte, k as u32, loads[k], d, h)).unwrap_or(0)
}

// First fit of n demands, with their tasks' core bytes, on m cores and the hyperperiod h: a step for each task, and none taken back.
pub fn first_fit(demands: [u32; 16], affinity: [u8; 16], n: usize, m: usize, h: u32) -> Found
    requires { Ranges demands n m h }
    ensures { result ≡ found_of (fit_answer (problem_of h m (take n demands) (take n affinity))) }
{
    let mut placement = [0u8; 16];
    let mut loads = [0u32; 4];
    let mut rejected = 0u32;
    for k in 0..n {
        let d = demands[k];
        let core = lowest_core(loads, affinity[k], d, m, h);
        let choice = core as u32;
        let more = blend::with_more(loads, choice, d);
        let next = numbers::with_entry(placement, k, core as u8);
        rejected += blend::pick(choice == 0, d, 0);
        loads = more;
        placement = next;
    }
    Found {
        placement,
        rejected,
        steps: n as u32,
        spent: false,
    }
}
