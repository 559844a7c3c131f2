// Code 3: a fresh core and its ticks. Blocks: the table, up to 1,024 bytes; the charge, 4 bytes; the core bytes, up to 1,024 bytes;
// the placement, up to 1,024 bytes; core number, 1 byte; tick count, 4 bytes; for each tick, also where the core is refused, sixteen requests,
// 64 bytes.
ghost use Rattle.std.specs.Prelude.{◌≡◌};
ghost use Rattle.text.specs.Shown.{shown};
ghost use Rattle.caselines.specs.Lines.{core_line, tick_line};

use crate::lines;
use runner::Ticked;
use start::Started;
use text::Text;

// The line of a fresh core.
pub fn core_line(started: Started) -> Text
    ensures { shown result ≡ core_line started }
{
    let nothing = text::empty();
    let outcome = started.outcome;
    let start = lines::append_outcome(nothing, outcome);
    let record = lines::append_record(start, started.core);
    text::append_bytes(record, b"\n")
}

// The line of one of its ticks.
pub fn tick_line(ticked: Ticked) -> Text
    ensures { shown result ≡ tick_line ticked }
{
    let nothing = text::empty();
    let outcome = ticked.outcome;
    let start = lines::append_outcome(nothing, outcome);
    let run = decimal::append_field(start, ticked.run as u64);
    let late = decimal::append_field(run, ticked.late as u64);
    text::append_bytes(late, b"\n")
}
