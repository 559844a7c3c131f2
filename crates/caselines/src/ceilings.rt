// Code 6: the step ceiling of a table. Blocks: the table, up to 1,024 bytes; the charge, 4 bytes; the core bytes, up to 1,024 bytes.
ghost use Rattle.std.specs.Prelude.{◌≡◌};
ghost use Rattle.text.specs.Shown.{shown};
ghost use Rattle.caselines.specs.Lines.{ceiling_line};

use crate::lines;
use ceiling::StepCeiling;
use text::Text;

// The line of a step ceiling.
pub fn ceiling_line(answer: StepCeiling) -> Text
    ensures { shown result ≡ ceiling_line answer }
{
    let nothing = text::empty();
    let outcome = answer.outcome;
    let start = lines::append_outcome(nothing, outcome);
    let ceiling = decimal::append_field(start, answer.ceiling);
    text::append_bytes(ceiling, b"\n")
}
