// The drive-bus profile: the periods that the bus clock divides into, and the test of a table's periods for them.
#![tactic(auto)]

ghost use Rattle.std.specs.Prelude.{◌≡◌, ◌↔◌, ◌≢◌, ◌≤◌};
ghost use Rattle.std.specs.Int.{◌∣◌};
ghost use Rattle.profile.specs.Periods.{bus_place};
ghost use Rattle.profile.specs.Tests.{list_test};

use fields::Fields;
use refusal::Cause;

// The periods that a table for bus drives may use: the divisors of 10,000.
const BUS_PERIODS: [u32; 25] = [
    1, 2, 4, 5, 8, 10, 16, 20, 25, 40, 50, 80, 100, 125, 200, 250, 400, 500, 625, 1000, 1250, 2000,
    2500, 5000, 10000,
];

// The place of a period in the list, from 1; 0 where it is not there.
pub fn bus_place(period: u32) -> usize
    ensures answer { result ≡ bus_place period }
    ensures divides { 1 ≤ period → (result ≢ 0) ↔ (period ∣ 10000) }
{
    numbers::first(25, |i| BUS_PERIODS[i] == period).unwrap_or(0)
}

// Number 22.
pub fn list_test(f: Fields) -> Result<(), Cause>
    requires { f.n ≤ 16 }
    ensures { result ≡ list_test f }
{
    refusal::refuse_at(
        numbers::first(f.n, |k| bus_place(f.periods[k]) == 0),
        Cause::BusPeriod,
    )
}
