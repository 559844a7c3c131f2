// Code 1: what the reader says of a table, with the planning order. Block: the table, up to 1,024 bytes.
ghost use Rattle.std.specs.Prelude.{◌≡◌, ◌+◌, ◌≤◌, ◌<◌};
ghost use Rattle.reorder.specs.Listed.{Listed};
ghost use Rattle.text.specs.Shown.{shown, Appended};
ghost use Rattle.caselines.specs.Lines.{size_fields, task_numbers, task_fields, table_line};

use crate::lines;
use taskset::{Reading, TaskSet};
use text::Text;

// The number of a task, from 1.
fn task_number(task: usize) -> u32
    requires { task < 16 }
    ensures { result ≡ task + 1 }
{
    (task + 1) as u32
}

// The tasks of an order by their numbers, from 1; zeros beyond n.
fn order_numbers(order: [usize; 16], n: usize) -> [u32; 16]
    requires { Listed order n }
    ensures { result ≡ task_numbers order n }
{
    numbers::row(0, n, |k| task_number(order[k]))
}

fn append_sizes(text: Text, t: TaskSet) -> Text
    ensures { Appended text (size_fields t) 63 result }
{
    let n = decimal::append_field(text, t.fields.n as u64);
    let m = decimal::append_field(n, t.fields.m as u64);
    decimal::append_field(m, u64::from(t.hyperperiod))
}

// Periods, budgets, demands and planning order.
fn append_tasks(text: Text, t: TaskSet) -> Text
    requires { t.fields.n ≤ 16 }
    ensures { Appended text (task_fields t) 1344 result }
{
    let order = ordering::planning_order(t);
    let numbers = order_numbers(order, t.fields.n);
    let p = lines::append_row(text, t.fields.periods);
    let b = lines::append_row(p, t.fields.budgets);
    let d = lines::append_row(b, t.demands);
    lines::append_row(d, numbers)
}

// The line of a reading.
pub fn table_line(r: Reading) -> Text
    requires { r.tasks.fields.n ≤ 16 }
    ensures { shown result ≡ table_line r }
{
    let nothing = text::empty();
    let outcome = r.outcome;
    let start = lines::append_outcome(nothing, outcome);
    let sizes = append_sizes(start, r.tasks);
    let rows = append_tasks(sizes, r.tasks);
    text::append_bytes(rows, b"\n")
}
