// The tests of a record's slots: whether every one can be, and which is the first that cannot.
#![tactic(auto)]

ghost use Rattle.std.specs.Prelude.{◌≡◌, ◌≤◌, eqb};
ghost use Rattle.edf.specs.Slots.{first_wrong};

use edf::Slot;

// Whether every slot can be. It does not stop at one that cannot, so that the compiler may test several at once.
pub fn all_can_be(charge: u32, slots: [Slot; 16]) -> bool
    requires { charge ≤ 9 }
    ensures { result ≡ eqb (first_wrong charge slots) 0 }
{
    let mut good = true;
    for i in 0..16usize {
        good &= !slots::cannot_be(charge, slots[i]);
    }
    good
}

// The number of the first slot that cannot be; 0 if there is none.
pub fn first_wrong(charge: u32, slots: [Slot; 16]) -> usize
    requires { charge ≤ 9 }
    ensures { result ≡ first_wrong charge slots }
{
    numbers::first(16, |i| slots::cannot_be(charge, slots[i])).unwrap_or(0)
}
