// The quick plan: first fit over the tasks in planning order, without a search and without a step limit.
#![tactic(auto)]

ghost use Rattle.std.specs.Prelude.{◌≡◌};
ghost use Rattle.taskset.specs.Promise.{Checked, Reads};
ghost use Rattle.taskset.specs.Table.{Decided};
ghost use Rattle.oldform.specs.Limits.{beside};
ghost use Rattle.quick.specs.Quick.{quick_for, refused_quick, quick_by, quick_of};
ghost use Rattle.quick.specs.Promise.{Fits};

use refusal::Cause;
use taskset::{Reading, TaskSet};

// The answer: for each task in table order its core, from 1, or 0 for left out, entries beyond n 0; and the left-out weight.
#[derive(Clone, Copy)]
pub struct QuickPlan {
    pub outcome: Result<(), Cause>,
    pub placement: [u8; 16],
    pub rejected: u32,
}

// A refused quick plan: zeros beside the cause.
fn refused(cause: Cause) -> QuickPlan
    ensures { result ≡ refused_quick cause }
{
    QuickPlan {
        outcome: Err(cause),
        placement: [0; 16],
        rejected: 0,
    }
}

// The quick plan of a checked task set.
pub fn quick_tasks(t: TaskSet) -> QuickPlan
    requires { Checked t }
    ensures { result ≡ quick_for t.fields }
{
    let n = t.fields.n;
    let order = ordering::planning_order(t);
    let prepared = planning::prepare(t, order);
    let demands = prepared.demands;
    let permitted = prepared.affinity;
    let found = firstfit::first_fit(demands, permitted, n, t.fields.m, t.hyperperiod);
    let choices = found.placement;
    let placement = reorder::in_table_order(choices, order, n);
    QuickPlan {
        outcome: Ok(()),
        placement: placement,
        rejected: found.rejected,
    }
}

// The quick plan of a table that was read, whatever its stored form; a refused one has none.
pub fn quick_read(reading: Reading) -> QuickPlan
    requires { Reads reading }
    ensures { result ≡ quick_by reading.outcome reading.tasks.fields }
{
    match reading.outcome {
        Err(cause) => refused(cause),
        Ok(()) => quick_tasks(reading.tasks),
    }
}

// The quick plan of a stored table on a board with this charge: each task, in planning order, on the lowest core that its core byte
// permits and where it still fits, or left out.
pub fn quick_plan(table: &[u8], charge: u32, affinity: &[u8]) -> QuickPlan
    ensures answer { result ≡ quick_of (beside table.now charge affinity.now) }
    ensures decides { Decided (beside table.now charge affinity.now) result.outcome }
    ensures fits { Fits (beside table.now charge affinity.now) result }
{
    let reading = oldform::read_beside(table, charge, affinity);
    quick_read(reading)
}
