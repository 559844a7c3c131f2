// The exact planner: the best plan of a stored table, within a step limit.
#![tactic(auto)]

ghost use Rattle.std.specs.Prelude.{◌≡◌};
ghost use Rattle.taskset.specs.Promise.{Checked, Reads};
ghost use Rattle.taskset.specs.Table.{Decided};
ghost use Rattle.oldform.specs.Limits.{beside};
ghost use Rattle.planner.specs.Plan.{verdict_of, plan_for, refused_plan, plan_by, plan_of, verdict_outcome};
ghost use Rattle.planner.specs.Promise.{Plans};

use refusal::Cause;
use taskset::{Reading, TaskSet};

// What the planner says of a plan.
#[derive(Clone, Copy)]
pub enum Verdict {
    // Nothing is left out.
    All,
    // Something is left out, and no full placement exists.
    Short,
    // The step limit ran out before the walk's end.
    Spent,
    // The table is refused.
    Refused(Cause),
}

// The answer: for each task in table order its core, from 1, or 0 for left out; entries beyond n are 0.
#[derive(Clone, Copy)]
pub struct Allocation {
    pub verdict: Verdict,
    pub placement: [u8; 16],
    pub rejected: u32,
    pub steps: u32,
}

// All if nothing is left out, unless the walk was spent.
fn verdict_of(spent: bool, rejected: u32) -> Verdict
    ensures { result ≡ verdict_of spent rejected }
{
    if spent {
        return Verdict::Spent;
    }
    if rejected == 0 {
        return Verdict::All;
    }
    Verdict::Short
}

// What a verdict says of the call.
pub fn verdict_outcome(verdict: Verdict) -> Result<(), Cause>
    ensures { result ≡ verdict_outcome verdict }
{
    match verdict {
        Verdict::All => Ok(()),
        Verdict::Short => Ok(()),
        Verdict::Spent => Ok(()),
        Verdict::Refused(cause) => Err(cause),
    }
}

// A refused plan: zeros beside the cause.
fn refused(cause: Cause) -> Allocation
    ensures { result ≡ refused_plan cause }
{
    Allocation {
        verdict: Verdict::Refused(cause),
        placement: [0; 16],
        rejected: 0,
        steps: 0,
    }
}

// The plan of a checked task set: the walk over its tasks in planning order. The rows are put into that order here and not by
// `planning::prepare`: handed back in one struct they are copied twice more, and the firmware's entry has little stack.
pub fn plan_tasks(t: TaskSet, limit: u32) -> Allocation
    requires { Checked t }
    ensures { result ≡ plan_for t.fields limit }
{
    let n = t.fields.n;
    let order = ordering::planning_order(t);
    let demands = reorder::in_planning_order(0, t.demands, order, n);
    let affinity = reorder::in_planning_order(0, t.fields.affinity, order, n);
    let found = search::search(demands, affinity, n, t.fields.m, t.hyperperiod, limit);
    let placement = reorder::in_table_order(found.placement, order, n);
    let verdict = verdict_of(found.spent, found.rejected);
    Allocation {
        verdict,
        placement,
        rejected: found.rejected,
        steps: found.steps,
    }
}

// The plan of a table that was read, whatever its stored form; a refused one has none.
pub fn plan_read(reading: Reading, limit: u32) -> Allocation
    requires { Reads reading }
    ensures { result ≡ plan_by limit reading.outcome reading.tasks.fields }
{
    match reading.outcome {
        Err(cause) => refused(cause),
        Ok(()) => plan_tasks(reading.tasks, limit),
    }
}

// Plans a stored table, on a board with this charge, each task on the cores that its core byte permits, in at most `limit` steps.
pub fn plan(table: &[u8], charge: u32, affinity: &[u8], limit: u32) -> Allocation
    ensures answer { result ≡ plan_of (beside table.now charge affinity.now) limit }
    ensures decides { Decided (beside table.now charge affinity.now) (verdict_outcome result.verdict) }
    ensures plans { Plans (beside table.now charge affinity.now) limit result }
{
    let reading = oldform::read_beside(table, charge, affinity);
    plan_read(reading, limit)
}
