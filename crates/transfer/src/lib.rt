// Tables into lent outputs: the writer of the new form, the move from the old form to the new one, and the move back.
#![tactic(auto)]

ghost use Rattle.std.specs.Prelude.{◌≡◌, ◌+◌, ◌*◌, ◌≤◌, ◌<◌, length, get_or};
ghost use Rattle.numbers.specs.First.{first};
ghost use Rattle.refusal.specs.declared.Cause.TheVariants.{Buffer};
ghost use Rattle.taskset.specs.Table.{lent, Decided};
ghost use Rattle.oldform.specs.Form.{old_bytes, OldForm};
ghost use Rattle.oldform.specs.Limits.{alone};
ghost use Rattle.newform.specs.Form.{new_bytes, NewForm};
ghost use Rattle.newform.specs.Limits.{new};
ghost use Rattle.storing.specs.Lent.{transfer_of, exit_of};
ghost use Rattle.storing.specs.Promise.{Stores};
ghost use Rattle.transfer.specs.Tables.{counted as counted_fields, written, other_byte, filling_test, returned};
ghost use Rattle.transfer.specs.Promise.{ReadBack, Unread, MovedOn, MovedBack};

use fields::Fields;
use refusal::Cause;
use storing::{New, Old, Transfer};

// Fields with a core byte for each task, as the new form has it.
fn counted(f: Fields) -> Fields
    ensures { result ≡ counted_fields f }
{
    Fields { given: f.n, ..f }
}

// Whether the core byte of task `k` is another than that of every core.
fn is_other_byte(f: Fields, k: usize) -> bool
    requires { k < 16 }
    ensures { result ≡ other_byte f k }
{
    f.affinity[k] != affinity::every_core(f.m)
}

// Number 18.
fn filling_test(f: Fields) -> Result<(), Cause>
    requires { f.n ≤ 16 }
    ensures { result ≡ filling_test f }
{
    let task = numbers::first(f.n, |k| is_other_byte(f, k));
    refusal::refuse_if((f.charge != 0) | task.is_some(), Cause::Filling)
}

// Writes fields to an output in the new form, if they are within the limits. Entries beyond n are not read.
pub fn write_new(f: Fields, out: &mut [u8]) -> Transfer
    ensures answer { result ≡ transfer_of Buffer new_bytes (written f) (length out.old) }
    ensures output { out.new ≡ exit_of Buffer new_bytes (written f) out.old }
    ensures decides { Decided (lent Buffer 8 (written f) (4 + 9 * f.n) (length out.old)) result.outcome }
    ensures stores { Stores (NewForm f) (4 + 9 * f.n) out.old result out.new }
    ensures back { ReadBack f result out.new }
    ensures unread { Unread f out.old result out.new }
{
    let reading = taskset::check(counted(f));
    storing::store::<New>(reading, out)
}

// Moves a table of the old form to an output in the new form: the charge is 0, and each task may use every core.
pub fn to_new(table: &[u8], out: &mut [u8]) -> Transfer
    ensures answer { result ≡ transfer_of Buffer new_bytes (alone table.now) (length out.old) }
    ensures output { out.new ≡ exit_of Buffer new_bytes (alone table.now) out.old }
    ensures decides { Decided (lent Buffer 8 (alone table.now) (4 + 9 * get_or table.now 0 0) (length out.old)) result.outcome }
    ensures stores { Stores (NewForm (alone table.now).fields) (4 + 9 * get_or table.now 0 0) out.old result out.new }
    ensures moved { MovedOn table.now result out.new }
{
    let reading = oldform::read_alone(table);
    storing::store::<New>(reading, out)
}

// Moves a table of the new form with exactly those fillings back to the old form.
pub fn to_old(table: &[u8], out: &mut [u8]) -> Transfer
    ensures answer { result ≡ transfer_of Buffer old_bytes (returned table.now) (length out.old) }
    ensures output { out.new ≡ exit_of Buffer old_bytes (returned table.now) out.old }
    ensures decides { Decided (lent Buffer 8 (returned table.now) (2 + 8 * get_or table.now 1 0) (length out.old)) result.outcome }
    ensures stores { Stores (OldForm (new table.now).fields) (2 + 8 * get_or table.now 1 0) out.old result out.new }
    ensures moved { MovedBack table.now result out.new }
{
    let read = newform::read_new(table);
    let filling = filling_test(read.tasks.fields);
    let reading = taskset::also(read, filling);
    storing::store::<Old>(reading, out)
}
