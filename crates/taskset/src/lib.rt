// A task set: the check of its fields, its hyperperiod and its exact demands, or a refusal.
#![tactic(auto)]

ghost use Rattle.std.specs.Prelude.{◌≡◌, ◌/◌, ◌≤◌, ◌<◌};
ghost use Rattle.numbers.specs.Rows.{row};
ghost use Rattle.refusal.specs.Tests.{◌then◌, in_order};
ghost use Rattle.fields.specs.Hyperperiod.{hyperperiod_of};
ghost use Rattle.fields.specs.Tests.{limit_tests};
ghost use Rattle.fields.specs.Limits.{Sized, Within};
ghost use Rattle.taskset.specs.Demands.{demand_of};
ghost use Rattle.taskset.specs.Reading.{refused_reading, accepted_reading, reading_by};
ghost use Rattle.taskset.specs.Promise.{Reads};
ghost use Rattle.taskset.specs.Table.{bare, reading_of, Decided};

use fields::{Fields, MOST_TASKS};
use refusal::Cause;

// A task set: fields within the limits, their hyperperiod (the paper's frame H) and the exact demand (its weight) of each task.
#[derive(Clone, Copy)]
pub struct TaskSet {
    pub fields: Fields,
    pub hyperperiod: u32,
    pub demands: [u32; MOST_TASKS],
}

// The answer of a check of fields, and so of every reader: a refusal has zeros beside its cause.
#[derive(Clone, Copy)]
pub struct Reading {
    pub outcome: Result<(), Cause>,
    pub tasks: TaskSet,
}

// How many jobs a task of this period releases in the hyperperiod `h`.
fn jobs(h: u32, period: u32) -> u32
    requires { (0 < period) × (h ≤ 1000000) }
    ensures { result ≡ h / period }
{
    h / period
}

// The demand of task `k` in the hyperperiod `h`. The division is exact, so it comes first.
fn demand(f: Fields, h: u32, k: usize) -> u32
    requires { Within f × (h ≡ hyperperiod_of f) × (k < f.n) }
    ensures { result ≡ demand_of f k }
{
    numbers::sum(f.budgets[k], f.charge) as u32 * jobs(h, f.periods[k])
}

// The demand of each task in the hyperperiod `h`, and zeros up to sixteen.
fn demands(f: Fields, h: u32) -> [u32; MOST_TASKS]
    requires { Within f × (h ≡ hyperperiod_of f) }
    ensures { result ≡ row 0 f.n (demand_of f) }
{
    numbers::row(0, f.n, |k| demand(f, h, k))
}

// A refusal, with zeros beside its cause.
fn refused(cause: Cause) -> Reading
    ensures { result ≡ refused_reading cause }
{
    let fields = Fields {
        n: 0,
        m: 0,
        periods: [0; MOST_TASKS],
        budgets: [0; MOST_TASKS],
        charge: 0,
        affinity: [0; MOST_TASKS],
        given: 0,
    };
    let tasks = TaskSet {
        fields,
        hyperperiod: 0,
        demands: [0; MOST_TASKS],
    };
    Reading {
        outcome: Err(cause),
        tasks,
    }
}

// The task set of fields within the limits.
fn accepted(f: Fields) -> Reading
    requires { Within f }
    ensures { result ≡ accepted_reading f }
{
    let h = hyperperiod::common_multiple(f).unwrap();
    let tasks = TaskSet {
        fields: f,
        hyperperiod: h,
        demands: demands(f, h),
    };
    Reading {
        outcome: Ok(()),
        tasks,
    }
}

// The answer for fields whose sizes are right.
fn check_limits(f: Fields) -> Reading
    requires { Sized f }
    ensures { result ≡ reading_by (in_order (limit_tests f)) f }
{
    match limits::limit_tests(f) {
        Err(cause) => refused(cause),
        Ok(()) => accepted(f),
    }
}

// The answer for fields after tests that a stored form makes before those of the limits; they include those of the sizes.
pub fn check_after(before: Result<(), Cause>, f: Fields) -> Reading
    requires { before ≡ Ok tt → Sized f }
    ensures { result ≡ reading_by (before then in_order (limit_tests f)) f }
{
    match before {
        Err(cause) => refused(cause),
        Ok(()) => check_limits(f),
    }
}

// A reading with tests of a call behind those that it went by.
pub fn also(reading: Reading, tests: Result<(), Cause>) -> Reading
    requires { Reads reading }
    ensures { result ≡ reading_by (reading.outcome then tests) reading.tasks.fields }
{
    match refusal::then(reading.outcome, tests) {
        Err(cause) => refused(cause),
        Ok(()) => reading,
    }
}

// Checks fields: their task set, or the first cause of refusal.
pub fn check(f: Fields) -> Reading
    ensures answer { result ≡ reading_of (bare f) }
    ensures decides { Decided (bare f) result.outcome }
    ensures reads { Reads result }
{
    let sizes = fields::size_tests(f);
    check_after(sizes, f)
}
