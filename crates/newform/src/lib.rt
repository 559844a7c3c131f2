// The new stored form, which holds the charge and the core bytes: its bytes become fields, and these a task set or a refusal.
#![tactic(auto)]

ghost use Rattle.std.specs.Prelude.{◌≡◌};
ghost use Rattle.refusal.specs.Tests.{◌then◌};
ghost use Rattle.taskset.specs.Promise.{Reads};
ghost use Rattle.taskset.specs.Table.{reading_of, Decided};
ghost use Rattle.form.specs.Layout.{ReadsIn};
ghost use Rattle.form.specs.Shape.{short_test};
ghost use Rattle.newform.specs.Form.{new_fields, NewForm};
ghost use Rattle.newform.specs.Limits.{first_test, new_shape, new};

use fields::Fields;
use refusal::Cause;
use taskset::Reading;

// A table is four bytes, and nine for each task.
pub const LEAD: usize = 4;

pub const EACH: usize = 9;

// The fields that the bytes say; bytes past the end count as 0.
pub fn decode(s: &[u8]) -> Fields
    ensures { result ≡ new_fields s.now }
{
    let n = wire::size(wire::byte(s, 1));
    let charge = wire::wide(wire::byte(s, 3));
    let affinity = rows::bytes(s, LEAD + 8 * n, n);
    form::decode(s, 1, LEAD, charge, affinity, n)
}

// Number 17.
fn first_test(s: &[u8]) -> Result<(), Cause>
    ensures { result ≡ first_test s.now }
{
    refusal::refuse_if(wire::byte(s, 0) != 0, Cause::FirstByte)
}

// Numbers 1 and 17, the tests of the leading bytes.
fn front_tests(s: &[u8]) -> Result<(), Cause>
    ensures { result ≡ short_test 4 s.now then first_test s.now }
{
    form::short_test(s, LEAD)?;
    first_test(s)
}

// The tests of a table's shape, for the fields that it says: numbers 1, 17, 2, 3 and 4.
pub fn shape_tests(table: &[u8], f: Fields) -> Result<(), Cause>
    ensures { result ≡ new_shape table.now f }
{
    let n = wire::size(wire::byte(table, 1));
    form::shape_tests(front_tests(table), table, LEAD + EACH * n, f)
}

// Reads a table in the new form: its task set, or the first cause of refusal.
pub fn read_new(table: &[u8]) -> Reading
    ensures answer { result ≡ reading_of (new table.now) }
    ensures decides { Decided (new table.now) result.outcome }
    ensures reads { Reads result }
    ensures stored { ReadsIn NewForm table.now result }
{
    let f = decode(table);
    taskset::check_after(shape_tests(table, f), f)
}
