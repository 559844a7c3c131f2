// Code 5: the quick plan of a table. Blocks: the table, up to 1,024 bytes; the charge, 4 bytes; the core bytes, up to 1,024 bytes.
ghost use Rattle.std.specs.Prelude.{◌≡◌};
ghost use Rattle.text.specs.Shown.{shown};
ghost use Rattle.caselines.specs.Lines.{quick_line};

use crate::lines;
use quick::QuickPlan;
use text::Text;

// The line of a quick plan.
pub fn quick_line(plan: QuickPlan) -> Text
    ensures { shown result ≡ quick_line plan }
{
    let nothing = text::empty();
    let outcome = plan.outcome;
    let start = lines::append_outcome(nothing, outcome);
    let rejected = decimal::append_field(start, u64::from(plan.rejected));
    let cores = lines::append_row(rejected, plan.placement);
    text::append_bytes(cores, b"\n")
}
