// What any call does that stores a table's fields in a lent output: the tests before, the room, the bytes in front, and the answer.
#![tactic(auto)]

ghost use Rattle.std.specs.Prelude.{◌≡◌, ℕ, List, ◌++◌, ◌≤◌, length, drop};
ghost use Rattle.refusal.specs.Tests.{◌then◌, room_test};
ghost use Rattle.refusal.specs.declared.Cause.TheVariants.{Buffer};
ghost use Rattle.fields.specs.Limits.{Within};
ghost use Rattle.fields.specs.declared.Fields.{Fields};
ghost use Rattle.taskset.specs.Promise.{Reads};
ghost use Rattle.oldform.specs.Form.{old_bytes, old_length};
ghost use Rattle.oldform.proofs.BackLaws.{old_long};
ghost use Rattle.newform.specs.Form.{new_bytes, new_length};
ghost use Rattle.newform.proofs.BackLaws.{new_long};
ghost use Rattle.storing.specs.Lent.{transfer_by, transfer_after, exit_after};

use fields::Fields;
use refusal::Cause;
use taskset::Reading;

// The answer of a call that stores a table in a lent output: the table's length, or 0 beside a refusal.
#[derive(Clone, Copy)]
pub struct Transfer {
    pub outcome: Result<(), Cause>,
    pub length: usize,
}

// The tests before, then number 8: the output is shorter than the table.
fn room_after(before: Result<(), Cause>, size: usize, room: usize) -> Result<(), Cause>
    ensures { result ≡ before then room_test Buffer size room }
{
    before?;
    refusal::room_test(Cause::Buffer, size, room)
}

// The answer by the outcome of all tests.
fn answer(outcome: Result<(), Cause>, size: usize) -> Transfer
    ensures { result ≡ transfer_by outcome size }
{
    match outcome {
        Err(cause) => Transfer {
            outcome: Err(cause),
            length: 0,
        },
        Ok(()) => Transfer {
            outcome: Ok(()),
            length: size,
        },
    }
}

// A stored form, to one who stores a table in it: the bytes that it makes of fields, and how many these are for n tasks.
pub trait StoredForm {
    ghost bytes: { Fields → List ℕ };

    ghost size: { ℕ → ℕ };

    // The length of a table of n tasks.
    fn length(n: usize) -> usize
        requires { n ≤ 16 }
        ensures { result ≡ size n };

    // Writes fields to the front of an output and leaves what follows.
    fn put(out: &mut [u8], f: Fields)
        requires { Within f × (size f.n ≤ length out.old) }
        ensures { out.new ≡ bytes f ++ drop (length (bytes f)) out.old };

    // The bytes of fields within the limits have that length.
    ghost long: { (f : Fields) → Within f → length (bytes f) ≡ size f.n };
}

// The new form.
pub struct New;

impl StoredForm for New {
    ghost bytes = { new_bytes };

    ghost size = { new_length };

    ghost long = { new_long };

    fn length(n: usize) -> usize {
        newform::LEAD + newform::EACH * n
    }

    fn put(out: &mut [u8], f: Fields) {
        encoding::put_new(out, f)
    }
}

// The old form.
pub struct Old;

impl StoredForm for Old {
    ghost bytes = { old_bytes };

    ghost size = { old_length };

    ghost long = { old_long };

    fn length(n: usize) -> usize {
        oldform::LEAD + oldform::EACH * n
    }

    fn put(out: &mut [u8], f: Fields) {
        encoding::put_old(out, f)
    }
}

// Stores the fields of a reading in a form, if it is accepted and there is room.
pub fn store<S: StoredForm>(reading: Reading, out: &mut [u8]) -> Transfer
    requires { Reads reading }
    ensures answer { result ≡ transfer_after Buffer reading.outcome (S.bytes reading.tasks.fields) (length out.old) }
    ensures output { out.new ≡ exit_after Buffer reading.outcome (S.bytes reading.tasks.fields) out.old }
{
    let size = S::length(reading.tasks.fields.n);
    let outcome = room_after(reading.outcome, size, out.len());
    match outcome {
        Err(_) => answer(outcome, size),
        Ok(()) => {
            S::put(out, reading.tasks.fields);
            answer(outcome, size)
        }
    }
}
