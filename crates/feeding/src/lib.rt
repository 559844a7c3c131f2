// The tests of a dependency list beside a table's fields: of its pairs, of the circles that they make, and all in order.
#![tactic(auto)]

ghost use Rattle.std.specs.Prelude.{◌≡◌, ◌≤◌};
ghost use Rattle.refusal.specs.Tests.{in_order};
ghost use Rattle.relation.specs.Cells.{Cells};
ghost use Rattle.pairs.specs.Pairs.{feeds};
ghost use Rattle.feeding.specs.Tests.{pairs_test, circle_test, list_tests};

use fields::Fields;
use refusal::Cause;

// Number 20.
fn pairs_test(f: Fields, list: &[u8]) -> Result<(), Cause>
    ensures { result ≡ pairs_test f list.now }
{
    refusal::refuse_at(
        numbers::first(pairs::count(list), |i| {
            pairs::is_unfit(f.n, f.periods, pairs::feeding(list, i), pairs::fed(list, i))
        }),
        Cause::Pair,
    )
}

// Which task feeds which, as cells.
pub fn relation_of(list: &[u8]) -> [bool; 289]
    ensures { Cells result (feeds list.now) }
{
    let mut cells = [false; 289];
    for i in 0..pairs::count(list) {
        // By way of `next`: the checker does not cover a call whose result is laid straight into an array.
        let next = relation::with_pair(cells, pairs::feeding(list, i), pairs::fed(list, i));
        cells = next;
    }
    cells
}

// Number 21.
fn circle_test(f: Fields, list: &[u8]) -> Result<(), Cause>
    requires { f.n ≤ 16 }
    ensures { result ≡ circle_test f list.now }
{
    refusal::refuse_at(relation::circle_task(relation_of(list), f.n), Cause::Circle)
}

// The tests of a list in order: numbers 19, 20 and 21.
pub fn list_tests(f: Fields, list: &[u8]) -> Result<(), Cause>
    requires { f.n ≤ 16 }
    ensures { result ≡ in_order (list_tests f list.now) }
{
    pairs::list_test(list)?;
    pairs_test(f, list)?;
    circle_test(f, list)
}
