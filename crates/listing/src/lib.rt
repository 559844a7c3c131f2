// The lines that the outputs of programs share: a table with the cores of its tasks, and a refusal.
#![tactic(auto)]

ghost use Rattle.std.specs.Prelude.{◌≡◌, ◌≤◌, []};
ghost use Rattle.affinity.specs.Permitted.{permitted_count, lowest_permitted};
ghost use Rattle.refusal.specs.Causes.{number_of, place_of};
ghost use Rattle.text.specs.Shown.{shown, Appended};
ghost use Rattle.listing.specs.Printed.{printed};
ghost use Rattle.listing.specs.Lines.{refusal_line, sizes_line, task_line, task_lines, table_lines};

use fields::Fields;
use refusal::Cause;
use taskset::TaskSet;
use text::Text;

// A refusal: number and place.
fn append_refusal(t: Text, cause: Cause) -> Text
    ensures { Appended t (refusal_line (number_of cause) (place_of cause)) 50 result }
{
    let number = numbering::number(cause) as u64;
    let place = numbering::place(cause) as u64;
    let word = text::append_bytes(t, b"refused");
    let fields = decimal::append_field(decimal::append_field(word, number), place);
    text::append_bytes(fields, b"\n")
}

// First line: n, m and the hyperperiod.
fn append_sizes(text: Text, t: TaskSet) -> Text
    ensures { Appended text (sizes_line t) 69 result }
{
    let word = text::append_bytes(text, b"table");
    let n = decimal::append_field(word, t.fields.n as u64);
    let m = decimal::append_field(n, t.fields.m as u64);
    let h = decimal::append_field(m, u64::from(t.hyperperiod));
    text::append_bytes(h, b"\n")
}

// A task's line: its number, period, budget and core, how many cores its core byte permits, and the lowest of them.
fn append_task(t: Text, task: usize, period: u32, budget: u32, core: u8, byte: u8) -> Text
    ensures { Appended t (task_line task period budget core (permitted_count byte 8) (lowest_permitted byte 8)) 126 result }
{
    let number = decimal::append_decimal(t, task as u64);
    let p = decimal::append_field(number, u64::from(period));
    let b = decimal::append_field(p, u64::from(budget));
    let c = decimal::append_field(b, u64::from(core));
    let count = decimal::append_field(c, u64::from(affinity::count(byte)));
    let lowest = decimal::append_field(count, u64::from(affinity::lowest(byte)));
    text::append_bytes(lowest, b"\n")
}

// A line for each task.
fn append_tasks(t: Text, f: Fields, cores: [u8; 16]) -> Text
    requires { f.n ≤ 16 }
    ensures { Appended t (task_lines f cores f.n) 2016 result }
{
    let mut longer = t;
    for k in 0..f.n {
        longer = append_task(
            longer,
            k + 1,
            f.periods[k],
            f.budgets[k],
            cores[k],
            f.affinity[k],
        );
    }
    longer
}

// The lines of a table and the cores of its tasks.
pub fn append_table(text: Text, t: TaskSet, cores: [u8; 16]) -> Text
    requires { t.fields.n ≤ 16 }
    ensures { Appended text (table_lines t cores) 2085 result }
{
    let sizes = append_sizes(text, t);
    append_tasks(sizes, t.fields, cores)
}

// The output for a refused table: the line of its refusal alone.
pub fn refusal_report(outcome: Result<(), Cause>) -> Text
    ensures { shown result ≡ printed outcome [] }
{
    let nothing = text::empty();
    match outcome {
        Ok(()) => nothing,
        Err(cause) => append_refusal(nothing, cause),
    }
}
