// Codes 7 and 12: what the reader of the new form, or the bus reader, says of a table. Block: the table, up to 1,024 bytes.
ghost use Rattle.std.specs.Prelude.{◌≡◌};
ghost use Rattle.text.specs.Shown.{shown, Appended};
ghost use Rattle.caselines.specs.Lines.{board_fields, row_fields, new_line};

use crate::lines;
use fields::Fields;
use taskset::{Reading, TaskSet};
use text::Text;

// n, m, the charge and the hyperperiod.
fn append_board(text: Text, t: TaskSet) -> Text
    ensures { Appended text (board_fields t) 84 result }
{
    let n = decimal::append_field(text, t.fields.n as u64);
    let m = decimal::append_field(n, t.fields.m as u64);
    let charge = decimal::append_field(m, u64::from(t.fields.charge));
    decimal::append_field(charge, u64::from(t.hyperperiod))
}

// Periods, budgets and core bytes.
fn append_rows(text: Text, f: Fields) -> Text
    ensures { Appended text (row_fields f) 1008 result }
{
    let p = lines::append_row(text, f.periods);
    let b = lines::append_row(p, f.budgets);
    lines::append_row(b, f.affinity)
}

// The line of a reading.
pub fn new_line(r: Reading) -> Text
    ensures { shown result ≡ new_line r }
{
    let nothing = text::empty();
    let outcome = r.outcome;
    let start = lines::append_outcome(nothing, outcome);
    let board = append_board(start, r.tasks);
    let rows = append_rows(board, r.tasks.fields);
    text::append_bytes(rows, b"\n")
}
