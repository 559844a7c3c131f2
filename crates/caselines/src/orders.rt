// Code 11: the check of a dependency list beside a table. Blocks: the table, in the new form, and the list, up to 1,024 bytes each.
ghost use Rattle.std.specs.Prelude.{◌≡◌};
ghost use Rattle.text.specs.Shown.{shown};
ghost use Rattle.caselines.specs.Lines.{order_line};

use crate::lines;
use dependencies::TaskOrder;
use text::Text;

// The line of an order of the tasks.
pub fn order_line(answer: TaskOrder) -> Text
    ensures { shown result ≡ order_line answer }
{
    let nothing = text::empty();
    let outcome = answer.outcome;
    let start = lines::append_outcome(nothing, outcome);
    let tasks = lines::append_row(start, answer.order);
    text::append_bytes(tasks, b"\n")
}
