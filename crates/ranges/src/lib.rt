// Whether a task's period, budget, cost or core byte is out of its range.
#![tactic(auto)]

ghost use Rattle.std.specs.Prelude.{◌≡◌, ◌≤◌, ◌<◌};
ghost use Rattle.fields.specs.Tests.{bad_period, bad_budget, bad_cost, bad_affinity};

use fields::Fields;

// Whether the period of task `k` is outside 1 to 10,000.
pub fn is_bad_period(f: Fields, k: usize) -> bool
    requires { k < 16 }
    ensures { result ≡ bad_period f k }
{
    numbers::outside(1, fields::LONGEST_PERIOD, f.periods[k] as u64)
}

// Whether the budget of task `k` is 0 or above its period.
pub fn is_bad_budget(f: Fields, k: usize) -> bool
    requires { k < 16 }
    ensures { result ≡ bad_budget f k }
{
    numbers::outside(1, f.periods[k] as u64, f.budgets[k] as u64)
}

// Whether the budget of task `k`, with the charge, is above its period. The sum may pass 32 bits in fields that are not tested.
pub fn is_bad_cost(f: Fields, k: usize) -> bool
    requires { k < 16 }
    ensures { result ≡ bad_cost f k }
{
    (f.periods[k] as u64) < numbers::sum(f.budgets[k], f.charge)
}

// Whether the core byte of task `k` is 0 or has a bit above core m.
pub fn is_bad_affinity(f: Fields, k: usize) -> bool
    requires { (k < 16) × (f.m ≤ 4) }
    ensures { result ≡ bad_affinity f k }
{
    affinity::is_unfit(f.affinity[k], f.m)
}
