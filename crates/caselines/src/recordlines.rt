// Code 4: one tick of a given record. Blocks: its charge, 4 bytes; its slots, 256 bytes; sixteen requests, 64 bytes.
ghost use Rattle.std.specs.Prelude.{◌≡◌};
ghost use Rattle.text.specs.Shown.{shown};
ghost use Rattle.caselines.specs.Lines.{record_line};

use crate::lines;
use runner::Ticked;
use text::Text;

// The line of a tick, with the record handed back.
pub fn record_line(ticked: Ticked) -> Text
    ensures { shown result ≡ record_line ticked }
{
    let nothing = text::empty();
    let outcome = ticked.outcome;
    let start = lines::append_outcome(nothing, outcome);
    let run = decimal::append_field(start, ticked.run as u64);
    let late = decimal::append_field(run, ticked.late as u64);
    let record = lines::append_record(late, ticked.core);
    text::append_bytes(record, b"\n")
}
