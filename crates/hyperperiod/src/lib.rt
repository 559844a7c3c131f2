// The least common multiple of the periods, and its test.
#![tactic(auto)]

ghost use Rattle.std.specs.Prelude.{◌≡◌, ◌≤◌};
ghost use Rattle.fields.specs.Tests.{hyperperiod_test};
ghost use Rattle.hyperperiod.specs.Multiple.{multiple_of};

use fields::Fields;
use refusal::Cause;

// The least common multiple of the periods, task by task; where it exceeds 1,000,000, the first task, from 1, at which it does.
pub fn common_multiple(f: Fields) -> Result<u32, usize>
    requires { f.n ≤ 16 }
    ensures { result ≡ multiple_of f }
{
    let mut h: u32 = 1;
    for k in 0..f.n {
        let next = multiples::lcm(h, f.periods[k]);
        if fields::MOST_MULTIPLE < next {
            return Err(k + 1);
        }
        h = next as u32;
    }
    Ok(h)
}

// Number 7.
pub fn hyperperiod_test(f: Fields) -> Result<(), Cause>
    requires { f.n ≤ 16 }
    ensures { result ≡ hyperperiod_test f }
{
    refusal::refuse_at(common_multiple(f).err(), Cause::Hyperperiod)
}
