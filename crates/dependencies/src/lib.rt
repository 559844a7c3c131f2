// The check of a dependency list: the tasks of a table in an order in which each stands after those that feed it, or a refusal.
#![tactic(auto)]

ghost use Rattle.std.specs.Prelude.{◌≡◌, ◌≤◌};
ghost use Rattle.refusal.specs.Tests.{in_order};
ghost use Rattle.taskset.specs.Table.{Decided};
ghost use Rattle.newform.specs.Limits.{new};
ghost use Rattle.feeding.specs.Tests.{list_tests};
ghost use Rattle.feeding.specs.Limits.{fed_by};
ghost use Rattle.dependencies.specs.Order.{refused_order, order_by, order_of};
ghost use Rattle.dependencies.specs.Promise.{Promise};

use fields::{Fields, MOST_TASKS};
use refusal::Cause;

// The answer: the numbers of the tasks in their order, and zeros up to sixteen; sixteen zeros beside a refusal. A struct and not a
// `Result`: the paper asks for the zeros, and `Promise` promises them.
#[derive(Clone, Copy)]
pub struct TaskOrder {
    pub outcome: Result<(), Cause>,
    pub order: [u8; MOST_TASKS],
}

// A refusal, with sixteen zeros beside its cause.
fn refused(cause: Cause) -> TaskOrder
    ensures { result ≡ refused_order cause }
{
    TaskOrder {
        outcome: Err(cause),
        order: [0; MOST_TASKS],
    }
}

// The answer for the fields of a table that was accepted: the list is tested.
fn order_tasks(f: Fields, list: &[u8]) -> TaskOrder
    requires { f.n ≤ 16 }
    ensures { result ≡ order_by list.now (in_order (list_tests f list.now)) f }
{
    match feeding::list_tests(f, list) {
        Err(cause) => refused(cause),
        Ok(()) => TaskOrder {
            outcome: Ok(()),
            order: sequencing::task_order(feeding::relation_of(list), f.n),
        },
    }
}

// Checks a dependency list beside a stored table in the new form: all tasks, each after those that feed it, the lowest ready number
// first, or the first cause of refusal.
pub fn check_dependencies(table: &[u8], list: &[u8]) -> TaskOrder
    ensures answer { result ≡ order_of (new table.now) list.now }
    ensures decides { Decided (fed_by (new table.now) list.now) result.outcome }
    ensures promise { Promise (new table.now) list.now result }
{
    let reading = newform::read_new(table);
    match reading.outcome {
        Err(cause) => refused(cause),
        Ok(()) => order_tasks(reading.tasks.fields, list),
    }
}
