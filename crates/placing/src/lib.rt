// The test of a core number, and all tests of a placing in their order, for a checked task set.
#![tactic(auto)]

ghost use Rattle.std.specs.Prelude.{◌≡◌};
ghost use Rattle.taskset.specs.Promise.{Checked};
ghost use Rattle.placing.specs.Tests.{core_test, placing_outcome};

use fields::Fields;
use refusal::Cause;
use taskset::TaskSet;

// Number 10.
fn core_test(f: Fields, core: u8) -> Result<(), Cause>
    ensures { result ≡ core_test f core }
{
    refusal::refuse_if(
        numbers::outside(1, f.m as u64, core as u64),
        Cause::CoreNumber,
    )
}

// Numbers 9, 16, 10 and 11.
pub fn placing_tests(t: TaskSet, placement: &[u8], core: u8) -> Result<(), Cause>
    requires { Checked t }
    ensures { result ≡ placing_outcome t.fields placement.now core }
{
    let f = t.fields;
    entries::places_test(f, placement)?;
    entries::entries_test(f, placement)?;
    entries::permitted_test(f, placement)?;
    core_test(f, core)?;
    loads::load_test(t, placement, core)
}
