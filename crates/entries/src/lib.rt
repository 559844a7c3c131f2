// The tests of a placement, for fields of a table: of its length and its entries, and of the cores that are permitted.
#![tactic(auto)]

ghost use Rattle.std.specs.Prelude.{◌≡◌, ◌≤◌};
ghost use Rattle.entries.specs.Tests.{places_test, entries_test, permitted_test};

use fields::Fields;
use refusal::Cause;

// Number 9: the placement's length is not n,
pub fn places_test(f: Fields, placement: &[u8]) -> Result<(), Cause>
    ensures { result ≡ places_test f placement.now }
{
    refusal::refuse_if(placement.len() != f.n, Cause::Placement(0))
}

// or an entry is above m.
pub fn entries_test(f: Fields, placement: &[u8]) -> Result<(), Cause>
    ensures { result ≡ entries_test f placement.now }
{
    refusal::refuse_at(
        numbers::first(f.n, |k| f.m < wire::size(wire::byte(placement, k))),
        Cause::Placement,
    )
}

// Number 16: a task is placed on a core that its byte does not permit.
pub fn permitted_test(f: Fields, placement: &[u8]) -> Result<(), Cause>
    requires { f.n ≤ 16 }
    ensures { result ≡ permitted_test f placement.now }
{
    refusal::refuse_at(
        numbers::first(
            f.n,
            |k| !affinity::allows(f.affinity[k], wire::byte(placement, k)),
        ),
        Cause::NotPermitted,
    )
}
