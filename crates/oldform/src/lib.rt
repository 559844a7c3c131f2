// The old stored form: its bytes become fields, with the charge and the core bytes that are given beside it, or with charge 0 and every
// core; and these a task set or a refusal.
#![tactic(auto)]

ghost use Rattle.std.specs.Prelude.{◌≡◌, replicate};
ghost use Rattle.numbers.specs.Rows.{row, entry};
ghost use Rattle.taskset.specs.Reading.{reading_by};
ghost use Rattle.taskset.specs.Promise.{Reads};
ghost use Rattle.taskset.specs.Table.{reading_of, Decided};
ghost use Rattle.form.specs.Layout.{ReadsIn};
ghost use Rattle.oldform.specs.Form.{old_fields, every_affinity, FormBeside};
ghost use Rattle.oldform.specs.Limits.{old_outcome, beside, alone};

use fields::MOST_TASKS;
use taskset::Reading;

// A table is two bytes, and eight for each task.
pub const LEAD: usize = 2;

pub const EACH: usize = 8;

// A byte `n` times, at most sixteen, and zeros up to sixteen.
fn repeated(byte: u8, n: usize) -> [u8; MOST_TASKS]
    ensures { result ≡ row 0 n (entry (replicate n byte)) }
{
    numbers::row(0, n, |_| byte)
}

// Reads a table with this charge, and with sixteen core bytes of which so many were given.
fn read_with(s: &[u8], charge: u32, affinity: [u8; MOST_TASKS], given: usize) -> Reading
    ensures { result ≡ reading_by (old_outcome s.now (old_fields s.now charge affinity given)) (old_fields s.now charge affinity given) }
{
    let n = wire::size(wire::byte(s, 0));
    let f = form::decode(s, 0, LEAD, charge, affinity, given);
    form::read(form::short_test(s, LEAD), s, LEAD + EACH * n, f)
}

// Reads a stored table with what is given beside it: the board's charge, and a core byte for each task. Its task set, or the first
// cause of refusal.
pub fn read_beside(table: &[u8], charge: u32, affinity: &[u8]) -> Reading
    ensures answer { result ≡ reading_of (beside table.now charge affinity.now) }
    ensures decides { Decided (beside table.now charge affinity.now) result.outcome }
    ensures reads { Reads result }
    ensures stored { ReadsIn (FormBeside charge affinity.now) table.now result }
{
    let n = wire::size(wire::byte(table, 0));
    let row = rows::bytes(affinity, 0, n);
    read_with(table, charge, row, affinity.len())
}

// Reads a stored table by itself, with charge 0 and every core permitted: its task set, or the first cause of refusal.
pub fn read_alone(table: &[u8]) -> Reading
    ensures answer { result ≡ reading_of (alone table.now) }
    ensures decides { Decided (alone table.now) result.outcome }
    ensures reads { Reads result }
    ensures stored { ReadsIn (FormBeside 0 (every_affinity table.now)) table.now result }
{
    let n = wire::size(wire::byte(table, 0));
    let m = wire::size(wire::byte(table, 1));
    let every = repeated(affinity::every_core(m), n);
    read_with(table, 0, every, n)
}
