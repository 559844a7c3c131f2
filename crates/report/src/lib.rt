// The whole output of the program `millplan` for the bytes of a table in the new form.
#![tactic(auto)]

ghost use Rattle.std.specs.Prelude.{◌≡◌, ◌≤◌};
ghost use Rattle.taskset.specs.Promise.{Reads};
ghost use Rattle.newform.specs.Limits.{new};
ghost use Rattle.text.specs.Shown.{shown, Appended};
ghost use Rattle.report.specs.Output.{verdict_word, summary_line, plan_lines, read_output, output_of};
ghost use Rattle.report.specs.Reported.{Reported, PlanReadBack};

use planner::{Allocation, Verdict};
use taskset::{Reading, TaskSet};
use text::Text;

const LIMIT: u32 = 1000000;

// The word of a verdict.
fn append_verdict(t: Text, verdict: Verdict) -> Text
    ensures { Appended t (verdict_word verdict) 7 result }
{
    match verdict {
        Verdict::All => text::append_bytes(t, b"all"),
        Verdict::Short => text::append_bytes(t, b"short"),
        Verdict::Spent => text::append_bytes(t, b"spent"),
        Verdict::Refused(_) => text::append_bytes(t, b"refused"),
    }
}

// Last line: verdict, rejected demand and steps.
fn append_summary(t: Text, plan: Allocation) -> Text
    ensures { Appended t (summary_line plan) 50 result }
{
    let verdict = plan.verdict;
    let word = append_verdict(t, verdict);
    let rejected = decimal::append_field(word, u64::from(plan.rejected));
    let steps = decimal::append_field(rejected, u64::from(plan.steps));
    text::append_bytes(steps, b"\n")
}

// The output for a plan.
fn plan_report(t: TaskSet, plan: Allocation) -> Text
    requires { t.fields.n ≤ 16 }
    ensures { shown result ≡ plan_lines t plan }
{
    let table = listing::append_table(text::empty(), t, plan.placement);
    append_summary(table, plan)
}

// The output for a table that was read, whatever its form and its tests: the plan, or the first refusal alone.
pub fn report_read(reading: Reading) -> Text
    requires { Reads reading }
    ensures { shown result ≡ read_output reading }
{
    let outcome = reading.outcome;
    let Ok(()) = outcome else {
        return listing::refusal_report(outcome);
    };
    let plan = planner::plan_tasks(reading.tasks, LIMIT);
    let verdict = plan.verdict;
    let (Verdict::All | Verdict::Short | Verdict::Spent) = verdict else {
        return listing::refusal_report(planner::verdict_outcome(verdict));
    };
    plan_report(reading.tasks, plan)
}

// The program's output for the bytes of a table.
pub fn report(table: &[u8]) -> Text
    ensures answer { shown result ≡ output_of (new table.now) }
    ensures reported { Reported (new table.now) (shown result) }
    ensures read_back { PlanReadBack (new table.now) (shown result) }
{
    let reading = newform::read_new(table);
    report_read(reading)
}
