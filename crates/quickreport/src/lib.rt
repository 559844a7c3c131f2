// The whole output of the program `quickplan` for the bytes of a table in the new form.
#![tactic(auto)]

ghost use Rattle.std.specs.Prelude.{◌≡◌, ◌≤◌};
ghost use Rattle.newform.specs.Limits.{new};
ghost use Rattle.text.specs.Shown.{shown, Appended};
ghost use Rattle.quickreport.specs.Output.{quick_summary, quick_lines, quick_output_of, Reported, QuickReadBack};

use quick::QuickPlan;
use taskset::TaskSet;
use text::Text;

// Last line: the rejected demand.
fn append_summary(t: Text, plan: QuickPlan) -> Text
    ensures { Appended t (quick_summary plan) 27 result }
{
    let word = text::append_bytes(t, b"quick");
    let rejected = decimal::append_field(word, u64::from(plan.rejected));
    text::append_bytes(rejected, b"\n")
}

// The output for a quick plan.
fn plan_report(t: TaskSet, plan: QuickPlan) -> Text
    requires { t.fields.n ≤ 16 }
    ensures { shown result ≡ quick_lines t plan }
{
    let table = listing::append_table(text::empty(), t, plan.placement);
    append_summary(table, plan)
}

// The program's output for the bytes of a table: the quick plan, or the first refusal alone.
pub fn report(table: &[u8]) -> Text
    ensures answer { shown result ≡ quick_output_of (new table.now) }
    ensures reported { Reported (new table.now) (shown result) }
    ensures read_back { QuickReadBack (new table.now) (shown result) }
{
    let reading = newform::read_new(table);
    let outcome = reading.outcome;
    let Ok(()) = outcome else {
        return listing::refusal_report(outcome);
    };
    let plan = quick::quick_tasks(reading.tasks);
    let answer = plan.outcome;
    let Ok(()) = answer else {
        return listing::refusal_report(answer);
    };
    plan_report(reading.tasks, plan)
}
