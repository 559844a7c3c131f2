// What a table says, and the tests of its sizes, of the charge and of the row of core bytes.
#![tactic(auto)]

ghost use Rattle.std.specs.Prelude.{◌≡◌};
ghost use Rattle.refusal.specs.Tests.{in_order};
ghost use Rattle.fields.specs.Tests.{tasks_test, cores_test, size_tests, charge_test, row_test};

use refusal::Cause;

// The paper's limits: at most so many tasks, cores, and ticks of charge, the longest period, and the greatest common multiple of the
// periods that is accepted.
pub const MOST_TASKS: usize = 16;

pub const MOST_CORES: usize = 4;

pub const MOST_CHARGE: u32 = 9;

pub const LONGEST_PERIOD: u64 = 10000;

pub const MOST_MULTIPLE: u64 = 1000000;

// What a stored table says: the numbers of tasks and cores, and a period and a budget (the paper's time) for each task. Beside it
// the board's charge (the field's switch cost), and a core byte (the field's affinity) for each task with how many of them were
// given: a stored form that holds them has n. A reader makes the entries beyond n 0.
#[derive(Clone, Copy)]
pub struct Fields {
    pub n: usize,
    pub m: usize,
    pub periods: [u32; MOST_TASKS],
    pub budgets: [u32; MOST_TASKS],
    pub charge: u32,
    pub affinity: [u8; MOST_TASKS],
    pub given: usize,
}

// Number 2.
fn tasks_test(f: Fields) -> Result<(), Cause>
    ensures { result ≡ tasks_test f }
{
    refusal::refuse_if(
        numbers::outside(1, MOST_TASKS as u64, f.n as u64),
        Cause::TaskCount,
    )
}

// Number 3.
fn cores_test(f: Fields) -> Result<(), Cause>
    ensures { result ≡ cores_test f }
{
    refusal::refuse_if(
        numbers::outside(1, MOST_CORES as u64, f.m as u64),
        Cause::CoreCount,
    )
}

// The tests of the sizes: numbers 2 and 3.
pub fn size_tests(f: Fields) -> Result<(), Cause>
    ensures { result ≡ in_order (size_tests f) }
{
    tasks_test(f)?;
    cores_test(f)
}

// Number 13.
pub fn charge_test(f: Fields) -> Result<(), Cause>
    ensures { result ≡ charge_test f }
{
    refusal::refuse_if(MOST_CHARGE < f.charge, Cause::Charge)
}

// Number 15: the row of core bytes has another length than n,
pub fn row_test(f: Fields) -> Result<(), Cause>
    ensures { result ≡ row_test f }
{
    refusal::refuse_if(f.given != f.n, Cause::Affinity(0))
}
