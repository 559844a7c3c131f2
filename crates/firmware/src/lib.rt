// The call by which the controller's C firmware plans: its work and its contract, which the export of `firmware_c` repeats.
#![tactic(auto)]

ghost use Rattle.std.specs.Prelude.{◌≡◌, ◌≤◌, length};
ghost use Rattle.firmware.specs.Call.{called, code_of, code_for, buffer_after};
ghost use Rattle.firmware.specs.Service.{Answers, Keeps};

use planner::Verdict;
use refusal::Cause;

// The number that the firmware is given for a verdict.
fn code(verdict: Verdict) -> u32
    ensures { result ≡ code_of verdict }
{
    match verdict {
        Verdict::All => 0,
        Verdict::Short => 1,
        Verdict::Spent => 2,
        Verdict::Refused(cause) => 100 + numbering::number(cause),
    }
}

// Plans a table in the new form and writes the plan; the entry's work, in a function of its own since the entry then takes less stack.
fn plan_into(table: &[u8], limit: u32, plan: &mut [u8]) -> u32
    ensures code { result ≡ code_for (called table.now (length plan.old)) limit }
    ensures buffer { plan.new ≡ buffer_after (called table.now (length plan.old)) limit plan.old }
{
    let reading = newform::read_new(table);
    let n = reading.tasks.fields.n;
    let read = reading.outcome;
    let fits = refusal::room_test(Cause::Buffer, n, plan.len());
    let outcome = refusal::then(read, fits);
    match outcome {
        Err(cause) => code(Verdict::Refused(cause)),
        Ok(()) => {
            let answer = planner::plan_tasks(reading.tasks, limit);
            let cores = answer.placement;
            packing::put_bytes(plan, 0, &cores[..n]);
            let verdict = answer.verdict;
            code(verdict)
        }
    }
}

// Plans a table in the new form in at most `limit` steps: 0 all, 1 short, 2 spent, or 100 plus the refusal number.
// The n core numbers go to the front of `plan`; a refusal writes nothing.
pub fn millplan_plan(table: &[u8], limit: u32, plan: &mut [u8]) -> u32
    ensures code { result ≡ code_for (called table.now (length plan.old)) limit }
    ensures buffer { plan.new ≡ buffer_after (called table.now (length plan.old)) limit plan.old }
    ensures answers { Answers (called table.now (length plan.old)) plan.old result plan.new }
    ensures keeps { result ≤ 2 → Keeps (called table.now (length plan.old)) plan.old limit result plan.new }
{
    plan_into(table, limit, plan)
}
