// Why a call is refused, and tests made in order.
#![tactic(auto)]

ghost use Rattle.std.specs.Prelude.{◌≡◌, ℕ};
ghost use Rattle.numbers.specs.First.{found};
ghost use Rattle.refusal.specs.declared.Cause.{Cause};
ghost use Rattle.refusal.specs.Tests.{◌then◌, refuse_if, refuse_at, room_test};

// The paper's causes, with the task, slot, pair, answer or record where it names one, counted from 1.
#[derive(Clone, Copy)]
pub enum Cause {
    TooShort,
    TaskCount,
    CoreCount,
    Length,
    Period(usize),
    Budget(usize),
    Hyperperiod(usize),
    Buffer,
    Placement(usize),
    CoreNumber,
    Overload,
    Slot(usize),
    Charge,
    Cost(usize),
    Affinity(usize),
    NotPermitted(usize),
    FirstByte,
    Filling,
    PairList,
    Pair(usize),
    Circle(usize),
    BusPeriod(usize),
    Answer(usize),
    LogRoom,
    Record(usize),
}

// One test after another: the first refusal is the outcome.
pub fn then(first: Result<(), Cause>, second: Result<(), Cause>) -> Result<(), Cause>
    ensures { result ≡ first then second }
{
    first?;
    second
}

// Refused if the condition of the cause holds.
pub fn refuse_if(condition: bool, cause: Cause) -> Result<(), Cause>
    ensures { result ≡ refuse_if condition cause }
{
    if condition { Err(cause) } else { Ok(()) }
}

// Refused if a place is named, with the cause that is made of it.
pub fn refuse_at<C: FnOnce(usize) -> Cause>(place: Option<usize>, cause: C) -> Result<(), Cause>
    requires { C.IsAlwaysCallable cause }
    ensures { (k : ℕ) (named : ℕ → Cause) → place ≡ found k → ((x : Cause) → C.post cause k x → x ≡ named k) → result ≡ refuse_at k named }
{
    match place {
        Some(k) => Err(cause(k)),
        None => Ok(()),
    }
}

// Refused if a lent output of length `room` is shorter than what is to stand in it.
pub fn room_test(cause: Cause, size: usize, room: usize) -> Result<(), Cause>
    ensures { result ≡ room_test cause size room }
{
    refuse_if(room < size, cause)
}
