// Whether a core is tried for a task: it has room, and where it is empty no lower twin is.
#![tactic(auto)]

ghost use Rattle.std.specs.Prelude.{◌≡◌, not, ◌&&◌, ◌+◌, ◌<◌, ◌≤◌, eqb, leb, get_or};
ghost use Rattle.affinity.specs.Permitted.{permitted};
ghost use Rattle.twins.specs.EmptyTwin.{some_zero_twin};

// Whether a core below the core after k others is empty, and its twin.
fn some_empty_twin(loads: &[u32; 4], rows: &[bool; 16], k: u32) -> bool
    requires { k < 4 }
    ensures { result ≡ some_zero_twin loads.now rows.now k k }
{
    for d in 0..k {
        if (loads[d as usize] == 0) & rows[(4 * k + d) as usize] {
            return true;
        }
    }
    false
}

// Whether the core after k others is tried for a task with this core byte and demand d: it may hold the task too, and where it is
// empty no lower twin is.
pub fn is_tried(byte: u8, k: u32, loads: &[u32; 4], rows: &[bool; 16], d: u32, h: u32) -> bool
    requires { (d ≤ h) × (k < 4) }
    ensures { result ≡ ((permitted byte (k + 1) && leb (get_or loads.now k 0 + d) h) && not (eqb (get_or loads.now k 0) 0 && some_zero_twin loads.now rows.now k k)) }
{
    let load = loads[k as usize];
    if !branch::has_room(byte, k, load, d, h) {
        return false;
    }
    if load != 0 {
        return true;
    }
    !some_empty_twin(loads, rows, k)
}
