// The run log: its records, and the answer of a call that writes or expands one.
#![tactic(auto)]

ghost use Rattle.std.specs.Prelude.{◌≡◌};
ghost use Rattle.runs.specs.Lent.{logged_by};

use refusal::Cause;

// A record: a task, or 0 for none, that had the core from tick `first` on for `length` ticks.
#[repr(C)]
#[derive(Clone, Copy)]
pub struct Run {
    pub task: u32,
    pub first: u32,
    pub length: u32,
}

// The answer of a call on a log: how many records were written or answers filled in; 0 beside a refusal.
#[derive(Clone, Copy)]
pub struct Logged {
    pub outcome: Result<(), Cause>,
    pub count: usize,
}

// The answer by the outcome of all tests.
pub fn answer(outcome: Result<(), Cause>, count: usize) -> Logged
    ensures { result ≡ logged_by outcome count }
{
    match outcome {
        Err(cause) => Logged {
            outcome: Err(cause),
            count: 0,
        },
        Ok(()) => Logged {
            outcome: Ok(()),
            count: count,
        },
    }
}
