// The step ceiling of a table: as many steps as the exact planner's walk has at most.
#![tactic(auto)]

ghost use Rattle.std.specs.Prelude.{◌≡◌};
ghost use Rattle.taskset.specs.Promise.{Checked, Reads};
ghost use Rattle.taskset.specs.Table.{Decided};
ghost use Rattle.oldform.specs.Limits.{beside};
ghost use Rattle.ceiling.specs.Ceiling.{step_ceiling, ceiling_by, ceiling_of};
ghost use Rattle.ceiling.specs.Promise.{Promise};

use refusal::Cause;
use taskset::{Reading, TaskSet};

// The answer: a refused table has ceiling 0.
#[derive(Clone, Copy)]
pub struct StepCeiling {
    pub outcome: Result<(), Cause>,
    pub ceiling: u64,
}

// The step ceiling of a checked task set: its tasks' core bytes count in planning order.
fn ceiling_of(t: TaskSet) -> u64
    requires { Checked t }
    ensures { result ≡ step_ceiling t.fields }
{
    let n = t.fields.n;
    let order = ordering::planning_order(t);
    let prepared = planning::prepare(t, order);
    let permitted = prepared.affinity;
    let tied = products::some_tied(permitted, n, t.fields.m);
    products::sum_of_products(tied, permitted, n, t.fields.m as u64)
}

// The step ceiling of a table that was read, whatever its stored form.
pub fn ceiling_read(reading: Reading) -> StepCeiling
    requires { Reads reading }
    ensures { result ≡ ceiling_by reading.outcome reading.tasks.fields }
{
    match reading.outcome {
        Err(cause) => StepCeiling {
            outcome: Err(cause),
            ceiling: 0,
        },
        Ok(()) => StepCeiling {
            outcome: Ok(()),
            ceiling: ceiling_of(reading.tasks),
        },
    }
}

// The step ceiling of a stored table on a board with this charge and with these core bytes, to set the exact planner's limit by.
pub fn step_ceiling(table: &[u8], charge: u32, affinity: &[u8]) -> StepCeiling
    ensures answer { result ≡ ceiling_of (beside table.now charge affinity.now) }
    ensures decides { Decided (beside table.now charge affinity.now) result.outcome }
    ensures promise { Promise (beside table.now charge affinity.now) result }
{
    let reading = oldform::read_beside(table, charge, affinity);
    ceiling_read(reading)
}
