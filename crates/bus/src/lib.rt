// The reader and the exact planner for bus drives: a table in the new form whose periods are all in the list of the drive-bus profile.
#![tactic(auto)]

ghost use Rattle.std.specs.Prelude.{◌≡◌};
ghost use Rattle.refusal.specs.Tests.{◌then◌, in_order};
ghost use Rattle.fields.specs.Limits.{Sized};
ghost use Rattle.taskset.specs.Promise.{Reads};
ghost use Rattle.taskset.specs.Table.{reading_of, Decided};
ghost use Rattle.form.specs.Layout.{ReadsIn};
ghost use Rattle.newform.specs.Form.{NewForm};
ghost use Rattle.planner.specs.Plan.{plan_of, verdict_outcome};
ghost use Rattle.planner.specs.Promise.{Plans};
ghost use Rattle.bus.specs.Limits.{front_tests, bus};
ghost use Rattle.bus.specs.Promise.{BusReads, BusPlans};

use fields::Fields;
use planner::Allocation;
use refusal::Cause;
use taskset::Reading;

// The tests of a table's shape, then numbers 13, 5 and 22.
fn front_tests(shape: Result<(), Cause>, f: Fields) -> Result<(), Cause>
    requires { shape ≡ Ok tt → Sized f }
    ensures { result ≡ shape then in_order (front_tests f) }
{
    shape?;
    fields::charge_test(f)?;
    limits::periods_test(f)?;
    profile::list_test(f)
}

// Reads a table for bus drives: its task set, or the first cause of refusal. All general limits are tested behind number 22, so that 13
// and 5 are tested twice, the second time in vain.
pub fn read_bus(table: &[u8]) -> Reading
    ensures answer { result ≡ reading_of (bus table.now) }
    ensures decides { Decided (bus table.now) result.outcome }
    ensures reads { Reads result }
    ensures stored { ReadsIn NewForm table.now result }
    ensures profile { BusReads table.now result }
{
    let f = newform::decode(table);
    let front = front_tests(newform::shape_tests(table, f), f);
    taskset::check_after(front, f)
}

// Plans a table for bus drives in at most `limit` steps: the exact planner's plan.
pub fn plan_bus(table: &[u8], limit: u32) -> Allocation
    ensures answer { result ≡ plan_of (bus table.now) limit }
    ensures decides { Decided (bus table.now) (verdict_outcome result.verdict) }
    ensures plans { Plans (bus table.now) limit result }
    ensures profile { BusPlans table.now limit result }
{
    let reading = read_bus(table);
    planner::plan_read(reading, limit)
}
