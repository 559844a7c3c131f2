// Code 2: the exact plan of a table. Blocks: the table, up to 1,024 bytes; the charge, 4 bytes; the core bytes, up to 1,024 bytes;
// the step limit, 4 bytes. Code 13: that of a table for bus drives. Blocks: the table, in the new form, and the step limit.
ghost use Rattle.std.specs.Prelude.{◌≡◌};
ghost use Rattle.text.specs.Shown.{shown};
ghost use Rattle.caselines.specs.Lines.{verdict_number, plan_line};

use crate::lines;
use planner::{Allocation, Verdict};
use text::Text;

// 0 all, 1 short, 2 spent; 0 if refused.
fn verdict_number(verdict: Verdict) -> u64
    ensures { result ≡ verdict_number verdict }
{
    match verdict {
        Verdict::All => 0,
        Verdict::Short => 1,
        Verdict::Spent => 2,
        Verdict::Refused(_) => 0,
    }
}

// The line of a plan.
pub fn plan_line(plan: Allocation) -> Text
    ensures { shown result ≡ plan_line plan }
{
    let nothing = text::empty();
    let verdict = plan.verdict;
    let start = lines::append_outcome(nothing, planner::verdict_outcome(verdict));
    let word = decimal::append_field(start, verdict_number(verdict));
    let rejected = decimal::append_field(word, u64::from(plan.rejected));
    let steps = decimal::append_field(rejected, u64::from(plan.steps));
    let cores = lines::append_row(steps, plan.placement);
    text::append_bytes(cores, b"\n")
}
