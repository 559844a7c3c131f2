// The one pass of a tick over the slots of a record.
#![tactic(auto)]

ghost use Rattle.std.specs.Prelude.{List};
ghost use Rattle.edf.specs.declared.Slot.{Slot};
ghost use Rattle.sweep.specs.Sweep.{AllCanBe, AfterSlots, Passing};

use edf::{Claim, Slot};

// What the pass over the slots leaves: the slots, the late task and the choice.
#[derive(Clone, Copy)]
pub struct Swept {
    pub slots: [Slot; 16],
    pub late: usize,
    pub choice: Claim,
}

// A part of the pass: the slots from `from` up to, not including, `to`, counted from 0, where those before left these slots, late task and choice.
// Each occupied slot is released if it is due, may become the choice, and counts down. Where `to` is `from` + 1, this is the step over one slot.
pub fn pass(
    charge: u32,
    requests: [u32; 16],
    mut next: [Slot; 16],
    mut late: usize,
    mut choice: Claim,
    from: usize,
    to: usize,
) -> Swept
    requires { (slots : List Slot) × Passing charge requests slots from to next late choice }
    ensures { (slots : List Slot) → Passing charge requests slots from to next late choice → AfterSlots charge requests slots to result.slots result.late result.choice }
{
    for done in from..to {
        let s = next[done];
        if s.period != 0 {
            let mut ready = s;
            if s.until == 0 {
                late = slots::late_so_far(late, done + 1, s);
                let asked = requests[done];
                ready = releases::released(charge, asked, s);
            }
            choice = slots::choice_so_far(choice, done + 1, ready);
            next[done] = countdown::advanced(ready);
        }
    }
    Swept {
        slots: next,
        late,
        choice,
    }
}

// The one pass of a tick, over all slots.
pub fn sweep(charge: u32, requests: [u32; 16], slots: [Slot; 16]) -> Swept
    requires { AllCanBe charge slots }
    ensures { AfterSlots charge requests slots 16 result.slots result.late result.choice }
{
    let none = Claim {
        task: 0,
        deadline: 0,
    };
    pass(charge, requests, slots, 0, none, 0, 16)
}
