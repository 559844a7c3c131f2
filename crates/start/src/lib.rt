// A fresh core: the record that a core of a table starts from under a placement, or a refusal.
#![tactic(auto)]

ghost use Rattle.std.specs.Prelude.{◌≡◌, ◌≤◌};
ghost use Rattle.edf.specs.Fresh.{slot_for, fresh_slots};
ghost use Rattle.taskset.specs.Promise.{Checked};
ghost use Rattle.taskset.specs.Table.{Decided};
ghost use Rattle.oldform.specs.Limits.{beside};
ghost use Rattle.placing.specs.Tests.{placing_outcome};
ghost use Rattle.placing.specs.Limits.{placed};
ghost use Rattle.start.specs.Starts.{placed_tasks, refused_start, start_by, start_of};
ghost use Rattle.start.specs.Promise.{Starts};

use edf::Slot;
use fields::{Fields, MOST_TASKS};
use refusal::Cause;
use runner::Core;
use taskset::TaskSet;

// What a fresh core hands back: its record, or zeros and the cause of refusal. A struct and not a `Result`: the paper asks for the zeros,
// and `Starts` promises them.
#[derive(Clone, Copy)]
pub struct Started {
    pub outcome: Result<(), Cause>,
    pub core: Core,
}

// The slot of a task that is first released at tick 0; all zeros if it is not placed on the core.
fn fresh_slot(period: u32, budget: u32, placed: u8, core: u8) -> Slot
    ensures { result ≡ slot_for period budget 0 placed core }
{
    if placed == core {
        Slot {
            period,
            budget,
            until: 0,
            remaining: 0,
        }
    } else {
        slots::empty()
    }
}

// The slots of a fresh core record.
fn fresh_slots(f: Fields, placement: &[u8], core: u8) -> [Slot; MOST_TASKS]
    requires { f.n ≤ 16 }
    ensures { result ≡ fresh_slots (placed_tasks f placement.now) core }
{
    numbers::row(
        slots::empty(),
        f.n,
        |k| fresh_slot(f.periods[k], f.budgets[k], wire::byte(placement, k), core),
    )
}

// A refusal, with a record of zeros beside its cause.
fn refused(cause: Cause) -> Started
    ensures { result ≡ refused_start cause }
{
    Started {
        outcome: Err(cause),
        core: Core {
            slots: [slots::empty(); MOST_TASKS],
            charge: 0,
        },
    }
}

// The fresh record of a checked task set, or the first cause of refusal.
pub fn start(t: TaskSet, placement: &[u8], core: u8) -> Started
    requires { Checked t }
    ensures { result ≡ start_by placement.now core (placing_outcome t.fields placement.now core) t.fields }
{
    match placing::placing_tests(t, placement, core) {
        Err(cause) => refused(cause),
        Ok(()) => Started {
            outcome: Ok(()),
            core: Core {
                slots: fresh_slots(t.fields, placement, core),
                charge: t.fields.charge,
            },
        },
    }
}

// The record that core `number` of a stored table starts from under a placement, on a board with this charge and with these core
// bytes, or the first cause of refusal.
pub fn fresh(table: &[u8], charge: u32, affinity: &[u8], placement: &[u8], number: u8) -> Started
    ensures answer { result ≡ start_of (beside table.now charge affinity.now) placement.now number }
    ensures decides { Decided (placed (beside table.now charge affinity.now) placement.now number) result.outcome }
    ensures starts { Starts (beside table.now charge affinity.now) placement.now number result }
{
    let reading = oldform::read_beside(table, charge, affinity);
    match reading.outcome {
        Err(cause) => refused(cause),
        Ok(()) => start(reading.tasks, placement, number),
    }
}
