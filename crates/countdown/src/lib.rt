// The countdown of one slot: of its release, and of what it owes where it runs.
#![tactic(auto)]

ghost use Rattle.std.specs.Prelude.{◌≡◌};
ghost use Rattle.edf.specs.Tick.{ran as ran_of, advanced as advanced_of};

use edf::Slot;

// Step 3: an occupied slot's release is one tick nearer.
pub fn advanced(s: Slot) -> Slot
    ensures { result ≡ advanced_of s }
{
    Slot {
        until: s.until.saturating_sub(1),
        ..s
    }
}

// Step 2: the slot that runs owes one tick less.
pub fn ran(s: Slot) -> Slot
    ensures { result ≡ ran_of s }
{
    Slot {
        remaining: s.remaining.saturating_sub(1),
        ..s
    }
}
