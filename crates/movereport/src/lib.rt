// What the programs `tonew` and `toold` write for the bytes of a table: the moved table, or the refusal beside it.
#![tactic(auto)]

ghost use Rattle.std.specs.Prelude.{[], ◌≤◌, length};
ghost use Rattle.listing.specs.Printed.{printed};
ghost use Rattle.oldform.specs.Form.{old_bytes};
ghost use Rattle.oldform.specs.Limits.{alone};
ghost use Rattle.newform.specs.Form.{new_bytes};
ghost use Rattle.transfer.specs.Tables.{returned};
ghost use Rattle.storing.specs.Promise.{stored_in};
ghost use Rattle.movereport.specs.Output.{Shows, MoveOutput};
ghost use Rattle.movereport.specs.Reported.{MoveReported};

use storing::Transfer;
use text::Text;

// The texts for standard output and for standard error.
#[derive(Clone, Copy)]
pub struct Moved {
    pub table: Text,
    pub refusal: Text,
}

// The texts for a move's answer and the output that it was lent.
fn texts(answer: Transfer, out: &[u8]) -> Moved
    requires { (answer.length ≤ length out.now) × (answer.length ≤ 2560) }
    ensures { Shows (stored_in answer out.now) (printed answer.outcome []) result }
{
    let table = text::append_bytes(text::empty(), &out[..answer.length]);
    let outcome = answer.outcome;
    let refusal = listing::refusal_report(outcome);
    Moved { table, refusal }
}

// The output of `tonew` for the bytes of a table in the old form. A table in the new form has at most 148 bytes.
pub fn to_new(table: &[u8]) -> Moved
    ensures answer { MoveOutput new_bytes (alone table.now) result }
    ensures reported { MoveReported new_bytes (alone table.now) result }
{
    let mut out = [0u8; 148];
    let answer = transfer::to_new(table, &mut out);
    texts(answer, &out)
}

// Two functions and not one over the size and the call: three lines each, and what they share is `texts`.
// The output of `toold` for the bytes of a table in the new form. A table in the old form has at most 130 bytes.
pub fn to_old(table: &[u8]) -> Moved
    ensures answer { MoveOutput old_bytes (returned table.now) result }
    ensures reported { MoveReported old_bytes (returned table.now) result }
{
    let mut out = [0u8; 130];
    let answer = transfer::to_old(table, &mut out);
    texts(answer, &out)
}
