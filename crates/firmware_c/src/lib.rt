// The plain entry by which the controller's C firmware calls the planner.
#![tactic(auto)]

ghost use Rattle.std.specs.Prelude.{◌≡◌, ◌≤◌, length};
ghost use Rattle.firmware.specs.Call.{called, code_for, buffer_after};
ghost use Rattle.firmware.specs.Service.{Answers, Keeps};

// Plans a table in the new form in at most `limit` steps: 0 all, 1 short, 2 spent, or 100 plus the refusal number.
// The n core numbers go to the front of `plan`; a refusal writes nothing.
#[unsafe(no_mangle)]
pub extern "C" fn millplan_plan(table: &[u8], limit: u32, plan: &mut [u8]) -> u32
    ensures code { result ≡ code_for (called table.now (length plan.old)) limit }
    ensures buffer { plan.new ≡ buffer_after (called table.now (length plan.old)) limit plan.old }
    ensures answers { Answers (called table.now (length plan.old)) plan.old result plan.new }
    ensures keeps { result ≤ 2 → Keeps (called table.now (length plan.old)) plan.old limit result plan.new }
{
    firmware::millplan_plan(table, limit, plan)
}
