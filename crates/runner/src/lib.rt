// The runner of one core: its record and one tick.
#![tactic(auto)]

ghost use Rattle.std.specs.Prelude.{◌≡◌, ◌≢◌, ◌≤◌};
ghost use Rattle.edf.specs.Slots.{each};
ghost use Rattle.edf.specs.Tick.{run as run_slot, stepped as stepped_of, tick as tick_of};
ghost use Rattle.refusal.specs.Conditions.{Decides};
ghost use Rattle.refusal.specs.declared.Cause.TheVariants.{Slot as WrongSlot};
ghost use Rattle.runner.specs.Answers.{tick_answer};
ghost use Rattle.runner.specs.Plain.{PlainTick, PlainRefusal};
ghost use Rattle.runner.specs.Records.{ValidRecord, record_conditions};

use edf::Slot;
use refusal::Cause;

// A core record. Slot k is task k's, and is occupied if its period is not 0; `charge` is the board's switch charge.
#[derive(Clone, Copy)]
pub struct Core {
    pub slots: [Slot; 16],
    pub charge: u32,
}

// What a tick hands back: the next record, the task run (0 for idle), the late task (0 for none), and whether it was refused. The zeros are the
// paper's numbers.
#[derive(Clone, Copy)]
pub struct Ticked {
    pub core: Core,
    pub run: usize,
    pub late: usize,
    pub outcome: Result<(), Cause>,
}

// Step 2: the task that runs owes one tick less; with 0, idle, the slots stay as they are.
fn after_run(run: usize, mut slots: [Slot; 16]) -> [Slot; 16]
    requires { run ≤ 16 }
    ensures { result ≡ each (run_slot run) slots }
{
    if run != 0 {
        slots[run - 1] = countdown::ran(slots[run - 1]);
    }
    slots
}

// The three steps of a record that passed the tests.
fn stepped(core: Core, requests: [u32; 16]) -> Ticked
    requires { ValidRecord core.charge core.slots }
    ensures answer { tick_answer result ≡ stepped_of core.charge core.slots requests }
    ensures outcome { result.outcome ≡ Ok tt }
{
    let swept = sweep::sweep(core.charge, requests, core.slots);
    let run = swept.choice.task;
    let next = after_run(run, swept.slots);
    Ticked {
        core: Core {
            slots: next,
            ..core
        },
        run,
        late: swept.late,
        outcome: Ok(()),
    }
}

// Number 12 for a slot, or for the charge with slot 0, and the record as it was.
fn refused(core: Core, slot: usize) -> Ticked
    ensures { result ≡ record { core = core; run = 0; late = 0; outcome = Err (WrongSlot slot) } }
{
    Ticked {
        core,
        run: 0,
        late: 0,
        outcome: Err(Cause::Slot(slot)),
    }
}

impl Core {
    // One tick: release, choose, run and advance; or number 12 with the record as it was.
    pub fn tick(self, requests: [u32; 16]) -> Ticked
        ensures answer { tick_answer result ≡ tick_of self.charge self.slots requests }
        ensures decides { Decides (ValidRecord self.charge self.slots) (record_conditions self.charge self.slots) result.outcome }
        ensures plain { result.outcome ≡ Ok tt → PlainTick self.charge self.slots requests result }
        ensures refused { result.outcome ≢ Ok tt → PlainRefusal self result }
    {
        let charge = self.charge;
        if 9 < charge {
            refused(self, 0)
        } else if records::all_can_be(charge, self.slots) {
            stepped(self, requests)
        } else {
            let wrong = records::first_wrong(charge, self.slots);
            refused(self, wrong)
        }
    }
}
