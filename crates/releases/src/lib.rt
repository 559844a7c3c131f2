// The release of one slot: what its task is owed for a period, and the slot that is released.
#![tactic(auto)]

ghost use Rattle.std.specs.Prelude.{◌≡◌, ◌+◌, ◌≤◌};
ghost use Rattle.edf.specs.Tick.{owed_for, released as released_of};

use edf::Slot;

// What a task is owed for a period: nothing if it asks for nothing, or else the smaller of request and budget, and the charge.
pub fn owed_for(charge: u32, budget: u32, asked: u32) -> u32
    requires { budget + charge ≤ 10000 }
    ensures { result ≡ owed_for charge budget asked }
{
    if asked == 0 {
        0
    } else {
        asked.min(budget) + charge
    }
}

// A slot that is released: its next release is a period away, and it owes what its task is owed for the period.
pub fn released(charge: u32, asked: u32, s: Slot) -> Slot
    requires { s.budget + charge ≤ 10000 }
    ensures { result ≡ released_of s (owed_for charge s.budget asked) }
{
    Slot {
        until: s.period,
        remaining: owed_for(charge, s.budget, asked),
        ..s
    }
}
