// The tests of the limits over all tasks of a table, joined in their order.
#![tactic(auto)]

ghost use Rattle.std.specs.Prelude.{◌≡◌, ◌≤◌};
ghost use Rattle.refusal.specs.Tests.{in_order};
ghost use Rattle.fields.specs.Tests.{periods_test, budgets_test, costs_test, affinity_test, limit_tests};
ghost use Rattle.fields.specs.Limits.{Sized};

use fields::Fields;
use refusal::Cause;

// Number 5.
pub fn periods_test(f: Fields) -> Result<(), Cause>
    requires { f.n ≤ 16 }
    ensures { result ≡ periods_test f }
{
    refusal::refuse_at(
        numbers::first(f.n, |k| ranges::is_bad_period(f, k)),
        Cause::Period,
    )
}

// Number 6.
fn budgets_test(f: Fields) -> Result<(), Cause>
    requires { f.n ≤ 16 }
    ensures { result ≡ budgets_test f }
{
    refusal::refuse_at(
        numbers::first(f.n, |k| ranges::is_bad_budget(f, k)),
        Cause::Budget,
    )
}

// Number 14.
fn costs_test(f: Fields) -> Result<(), Cause>
    requires { f.n ≤ 16 }
    ensures { result ≡ costs_test f }
{
    refusal::refuse_at(
        numbers::first(f.n, |k| ranges::is_bad_cost(f, k)),
        Cause::Cost,
    )
}

// or a byte is 0 or has a bit above core m.
fn affinity_test(f: Fields) -> Result<(), Cause>
    requires { Sized f }
    ensures { result ≡ affinity_test f }
{
    refusal::refuse_at(
        numbers::first(f.n, |k| ranges::is_bad_affinity(f, k)),
        Cause::Affinity,
    )
}

// Number 13, then 5, 6, 14, 15 and 7.
pub fn limit_tests(f: Fields) -> Result<(), Cause>
    requires { Sized f }
    ensures { result ≡ in_order (limit_tests f) }
{
    fields::charge_test(f)?;
    periods_test(f)?;
    budgets_test(f)?;
    costs_test(f)?;
    fields::row_test(f)?;
    affinity_test(f)?;
    hyperperiod::hyperperiod_test(f)
}
