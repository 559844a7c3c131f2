// The number and the place that the paper gives a cause of refusal.
#![tactic(auto)]

ghost use Rattle.std.specs.Prelude.{◌≡◌};
ghost use Rattle.refusal.specs.Causes.{number_of, place_of};

use refusal::Cause;

// The number that the paper gives a cause.
pub fn number(cause: Cause) -> u32
    ensures { result ≡ number_of cause }
{
    match cause {
        Cause::TooShort => 1,
        Cause::TaskCount => 2,
        Cause::CoreCount => 3,
        Cause::Length => 4,
        Cause::Period(_) => 5,
        Cause::Budget(_) => 6,
        Cause::Hyperperiod(_) => 7,
        Cause::Buffer => 8,
        Cause::Placement(_) => 9,
        Cause::CoreNumber => 10,
        Cause::Overload => 11,
        Cause::Slot(_) => 12,
        Cause::Charge => 13,
        Cause::Cost(_) => 14,
        Cause::Affinity(_) => 15,
        Cause::NotPermitted(_) => 16,
        Cause::FirstByte => 17,
        Cause::Filling => 18,
        Cause::PairList => 19,
        Cause::Pair(_) => 20,
        Cause::Circle(_) => 21,
        Cause::BusPeriod(_) => 22,
        Cause::Answer(_) => 23,
        Cause::LogRoom => 24,
        Cause::Record(_) => 25,
    }
}

// The place that the paper gives a cause; 0 where it names none.
pub fn place(cause: Cause) -> usize
    ensures { result ≡ place_of cause }
{
    match cause {
        Cause::TooShort => 0,
        Cause::TaskCount => 0,
        Cause::CoreCount => 0,
        Cause::Length => 0,
        Cause::Period(task) => task,
        Cause::Budget(task) => task,
        Cause::Hyperperiod(task) => task,
        Cause::Buffer => 0,
        Cause::Placement(task) => task,
        Cause::CoreNumber => 0,
        Cause::Overload => 0,
        Cause::Slot(slot) => slot,
        Cause::Charge => 0,
        Cause::Cost(task) => task,
        Cause::Affinity(task) => task,
        Cause::NotPermitted(task) => task,
        Cause::FirstByte => 0,
        Cause::Filling => 0,
        Cause::PairList => 0,
        Cause::Pair(pair) => pair,
        Cause::Circle(task) => task,
        Cause::BusPeriod(task) => task,
        Cause::Answer(answer) => answer,
        Cause::LogRoom => 0,
        Cause::Record(record) => record,
    }
}
