// The load of a core by a placement, and its test, for a checked task set.
#![tactic(auto)]

ghost use Rattle.std.specs.Prelude.{◌≡◌, cond};
ghost use Rattle.taskset.specs.Demands.{load_on};
ghost use Rattle.taskset.specs.Promise.{Checked};
ghost use Rattle.loads.specs.Test.{load_test};

use refusal::Cause;
use taskset::TaskSet;

// The demand of a task, if it is on the core.
fn share(demand: u32, on: bool) -> u32
    ensures { result ≡ cond on demand 0 }
{
    if on { demand } else { 0 }
}

// The load of a core: the sum of the demands of the tasks that are on it.
fn load_on(t: TaskSet, placement: &[u8], core: u8) -> u32
    requires { Checked t }
    ensures { result ≡ load_on t.fields placement.now core }
{
    let mut sum: u32 = 0;
    for k in 0..t.fields.n {
        sum += share(t.demands[k], wire::byte(placement, k) == core);
    }
    sum
}

// Number 11.
pub fn load_test(t: TaskSet, placement: &[u8], core: u8) -> Result<(), Cause>
    requires { Checked t }
    ensures { result ≡ load_test t.fields placement.now core }
{
    let load = load_on(t, placement, core);
    refusal::refuse_if(t.hyperperiod < load, Cause::Overload)
}
