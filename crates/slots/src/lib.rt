// One slot of a core record: the empty one, whether one can be, and the late task and the choice with it.
#![tactic(auto)]

ghost use Rattle.std.specs.Prelude.{◌≡◌, ◌≤◌};
ghost use Rattle.edf.specs.Slots.{empty_slot, cannot_be};
ghost use Rattle.slots.specs.SoFar.{late_so_far, choice_so_far};

use edf::{Claim, Slot};

// A slot that no task has. Its zeros are written out, since the contract names each and two edits of must-fail/ change one.
pub fn empty() -> Slot
    ensures { result ≡ empty_slot }
{
    Slot {
        period: 0,
        budget: 0,
        until: 0,
        remaining: 0,
    }
}

// Whether a slot cannot be: it is not all zeros, and a field is out of its range. In a period of 0 no release is within the period.
// A budget of 65,536 or more is above its period, or the period is above 10,000, whatever the cost is: so the remainder does, and the sum fits.
pub fn cannot_be(charge: u32, s: Slot) -> bool
    requires { charge ≤ 9 }
    ensures { result ≡ cannot_be charge s }
{
    let cost = s.budget % 65536 + charge;
    ((s.period != 0) | (s.budget != 0) | (s.until != 0) | (s.remaining != 0))
        & ((10000 < s.period)
            | (s.budget == 0)
            | (s.period < s.budget)
            | (s.period < cost)
            | (s.period <= s.until)
            | (cost < s.remaining))
}

// The late task so far, with one released slot more.
pub fn late_so_far(late: usize, number: usize, s: Slot) -> usize
    ensures { result ≡ late_so_far late number s }
{
    if (late == 0) & (0 < s.remaining) {
        number
    } else {
        late
    }
}

// The choice so far, with one slot more.
pub fn choice_so_far(best: Claim, number: usize, s: Slot) -> Claim
    ensures { result ≡ choice_so_far best number s }
{
    if 0 < s.remaining {
        if (best.task == 0) | (s.until < best.deadline) {
            Claim {
                task: number,
                deadline: s.until,
            }
        } else {
            best
        }
    } else {
        best
    }
}
