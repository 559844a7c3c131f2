// What the stored forms share: where a table has its sizes and rows, the tests of its shape, and the reading that follows them.
#![tactic(auto)]

ghost use Rattle.std.specs.Prelude.{◌≡◌, ◌≤◌};
ghost use Rattle.taskset.specs.Reading.{reading_by};
ghost use Rattle.form.specs.Layout.{fields_at};
ghost use Rattle.form.specs.Shape.{short_test, length_test, shape_outcome, form_outcome};

use fields::{Fields, MOST_TASKS};
use refusal::Cause;
use taskset::Reading;

// The fields of a table with n at `at` and m behind it, whose periods and budgets stand behind `lead` bytes; with a charge, and sixteen
// core bytes of which so many were given. Bytes past the end count as 0.
pub fn decode(
    s: &[u8],
    at: usize,
    lead: usize,
    charge: u32,
    affinity: [u8; MOST_TASKS],
    given: usize,
) -> Fields
    requires { (at ≤ 1) × (lead ≤ 4) }
    ensures { result ≡ fields_at s.now at lead charge affinity given }
{
    let n = wire::size(wire::byte(s, at));
    let m = wire::size(wire::byte(s, at + 1));
    let periods = rows::words(s, lead, n);
    let budgets = rows::words(s, lead + 4 * n, n);
    Fields {
        n,
        m,
        periods,
        budgets,
        charge,
        affinity,
        given,
    }
}

// Number 1.
pub fn short_test(s: &[u8], lead: usize) -> Result<(), Cause>
    ensures { result ≡ short_test lead s.now }
{
    refusal::refuse_if(s.len() < lead, Cause::TooShort)
}

// Number 4.
fn length_test(s: &[u8], size: usize) -> Result<(), Cause>
    ensures { result ≡ length_test size s.now }
{
    refusal::refuse_if(s.len() != size, Cause::Length)
}

// The tests of the leading bytes, the sizes of the fields, number 4.
pub fn shape_tests(front: Result<(), Cause>, s: &[u8], size: usize, f: Fields) -> Result<(), Cause>
    ensures { result ≡ shape_outcome front size s.now f }
{
    front?;
    fields::size_tests(f)?;
    length_test(s, size)
}

// Reads a table of this size after the tests of its leading bytes: its task set, or the first cause of refusal.
pub fn read(front: Result<(), Cause>, s: &[u8], size: usize, f: Fields) -> Reading
    ensures { result ≡ reading_by (form_outcome front size s.now f) f }
{
    let shape = shape_tests(front, s, size, f);
    taskset::check_after(shape, f)
}
