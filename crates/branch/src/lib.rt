// What counts as tried once a choice is taken back, and whether a core has room for a task.
#![tactic(auto)]

ghost use Rattle.std.specs.Prelude.{◌≡◌, cond, ◌&&◌, ◌+◌, ◌<◌, ◌≤◌, leb};
ghost use Rattle.affinity.specs.Permitted.{permitted};
ghost use Rattle.allocation.specs.Walk.{tried_by};

// How many choices have been tried once c has been.
fn tried_by(m: u32, c: u32) -> u32
    requires { m ≤ 4 }
    ensures { result ≡ tried_by m c }
{
    if c == 0 { m + 1 } else { c }
}

// How many choices count as tried once c is taken back, where `out` is rejected: all of them, if that is not below the
// bound, since no choice rejects less.
pub fn resume(m: u32, c: u32, out: u32, bound: u32) -> u32
    requires { m ≤ 4 }
    ensures { result ≡ cond (leb bound out) (m + 1) (tried_by m c) }
{
    if bound <= out {
        return m + 1;
    }
    tried_by(m, c)
}

// Whether the core after `below` others, with this load, may hold a task too: the task's core byte permits it, and with
// demand d the load is at most h.
pub fn has_room(byte: u8, below: u32, load: u32, d: u32, h: u32) -> bool
    requires { (d ≤ h) × (below < 4) }
    ensures { result ≡ (permitted byte (below + 1) && leb (load + d) h) }
{
    affinity::permits(byte, below) & (load <= h - d)
}
