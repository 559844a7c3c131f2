// The whole output of the program `feeds` for the bytes of a table in the new form and of a dependency list behind it.
#![tactic(auto)]

ghost use Rattle.std.specs.Prelude.{◌≡◌, ◌≤◌};
ghost use Rattle.newform.specs.Limits.{new};
ghost use Rattle.text.specs.Shown.{shown};
ghost use Rattle.feedsreport.specs.Split.{split_at, table_in, list_in, Split};
ghost use Rattle.feedsreport.specs.Output.{order_line, order_output_of, feeds_output_of};
ghost use Rattle.feedsreport.specs.Reported.{Reported, FeedsReadBack};

use fields::MOST_TASKS;
use text::Text;

// Where the table ends: behind as many tasks as byte 1 says; at the end of the input if that is no number of tasks or there are fewer bytes.
fn table_end(input: &[u8]) -> usize
    ensures { result ≡ split_at input.now }
{
    let n = wire::size(wire::byte(input, 1));
    let end = 4 + 9 * n;
    let length = input.len();
    if numbers::outside(1, MOST_TASKS as u64, n as u64) | (length < end) {
        return length;
    }
    end
}

// The line of an order: the first `n` task numbers of its row. A row and a number and not a slice: its edit
// `zeros_behind_the_tasks_throughout` holds the range, and `order_line` in specs/ is of both.
fn order_line(order: [u8; 16], n: usize) -> Text
    requires { (1 ≤ n) × (n ≤ 16) }
    ensures { shown result ≡ order_line n order }
{
    let nothing = text::empty();
    let first = decimal::append_decimal(nothing, u64::from(order[0]));
    let tasks = decimal::append_numbers(first, &order[1..n]);
    text::append_bytes(tasks, b"\n")
}

// The output for a table and a list: the order of as many tasks as byte 1 of the table says, or the first refusal alone.
fn order_report(table: &[u8], list: &[u8]) -> Text
    ensures { shown result ≡ order_output_of (new table.now) list.now }
{
    let answer = dependencies::check_dependencies(table, list);
    let outcome = answer.outcome;
    let Ok(()) = outcome else {
        return listing::refusal_report(outcome);
    };
    let order = answer.order;
    order_line(order, wire::size(wire::byte(table, 1)))
}

// The program's output for the bytes of a table and of the list behind it: the order of the tasks, or the first refusal alone. The input may
// have any length: both parts are lent on as they stand in it, and neither is copied into a row that has to hold it.
pub fn report(input: &[u8]) -> Text
    ensures answer { shown result ≡ feeds_output_of input.now }
    ensures split { Split input.now (table_in input.now) (list_in input.now) }
    ensures reported { Reported (new (table_in input.now)) (list_in input.now) (shown result) }
    ensures read_back { FeedsReadBack (new (table_in input.now)) (list_in input.now) (shown result) }
{
    let end = table_end(input);
    order_report(&input[..end], &input[end..])
}
