// The run log's two calls, over a lent row in which records stand: thin loops over functions that are proved apart.
#![tactic(auto)]

ghost use Rattle.std.specs.Prelude.{◌≡◌, ◌<◌, ◌≤◌, List, length, take, set, refl};
ghost use Rattle.refusal.specs.Causes.{number_in};
ghost use Rattle.refusal.specs.Conditions.{Decides};
ghost use Rattle.runs.specs.declared.Run.{Run};
ghost use Rattle.runs.specs.Log.{run_at};
ghost use Rattle.recording.specs.Tests.{write_answer, log_after};
ghost use Rattle.recording.specs.Limits.{Writable, write_conditions};
ghost use Rattle.recording.specs.Promise.{Writes};
ghost use Rattle.replay.specs.Tests.{audit_start, audit_of, expand_answer, row_after, painted_all};
ghost use Rattle.replay.specs.Limits.{Expandable, expand_conditions};
ghost use Rattle.replay.specs.Promise.{Expands};
ghost use Rattle.runlog.specs.Rows.{Holding};

use replay::Audit;
use runs::{Logged, Run};

// How records stand in a row.
pub trait Layout {
    // What the row is made of.
    type Part;

    // The records of a row, and the row with so many others in their place.
    ghost records: { List Self.Part → List Run };

    ghost holding: { List Self.Part → List Run → List Self.Part };

    // How many records there are.
    fn count(row: &[Self::Part]) -> usize
        ensures { result ≡ length (records row.now) };

    // Record `k`, counted from 0.
    fn record(row: &[Self::Part], k: usize) -> Run
        requires { k < length (records row.now) }
        ensures { result ≡ run_at (records row.now) k };

    // Stores record `k`, counted from 0.
    fn put(row: &mut [Self::Part], k: usize, r: Run)
        requires { k < length (records row.old) }
        ensures { row.new ≡ holding row.old (set (records row.old) k r) };

    ghost laws: { Holding records holding };
}

// A row of records.
pub struct Structs;

impl Layout for Structs {
    type Part = Run;

    ghost records = { λ row. row };

    ghost holding = { λ row rs. rs };

    fn count(row: &[Run]) -> usize {
        row.len()
    }

    fn record(row: &[Run], k: usize) -> Run {
        row[k]
    }

    fn put(row: &mut [Run], k: usize, r: Run) {
        row[k] = r;
    }

    ghost laws = { record { same = λ row. refl; held = λ row rs e. refl; last = λ row rs ss e. refl } };
}

// Writes the log of the answers to the front of a row.
pub fn write<L: Layout>(answers: &[u8], row: &mut [L::Part]) -> Logged
    ensures answer { result ≡ write_answer answers.now (length (L.records row.old)) }
    ensures row { row.new ≡ L.holding row.old (log_after answers.now (L.records row.old)) }
    ensures decides { Decides (Writable answers.now (length (L.records row.old))) (write_conditions answers.now (length (L.records row.old))) result.outcome }
    ensures writes { Writes answers.now (L.records row.old) (number_in result.outcome) result.count (L.records row.new) }
{
    let answer = recording::write_answer(answers, L::count(row));
    let mut at: usize = 0;
    for k in 0..answer.count {
        let end = recording::run_end(answers, at);
        L::put(row, k, recording::run_of(answers, at, end));
        at = end;
    }
    answer
}

// Looks at every record, in order, up to an unfit one.
fn audit<L: Layout>(row: &[L::Part]) -> Result<Audit, usize>
    ensures { result ≡ audit_of audit_start (L.records row.now) }
{
    let mut a = replay::audit_start();
    for k in 0..L::count(row) {
        a = replay::look_at(a, L::record(row, k))?;
    }
    Ok(a)
}

// Fills in the ticks of the first `n` records, in order.
fn paint<L: Layout>(row: &[L::Part], bytes: &mut [u8], n: usize)
    requires { n ≤ length (L.records row.now) }
    ensures { bytes.new ≡ painted_all (take n (L.records row.now)) bytes.old }
{
    for k in 0..n {
        replay::paint(bytes, L::record(row, k));
    }
}

// Fills a lent row of bytes with the answers of the records.
pub fn expand<L: Layout>(row: &[L::Part], bytes: &mut [u8]) -> Logged
    ensures answer { result ≡ expand_answer (L.records row.now) (length bytes.old) }
    ensures bytes { bytes.new ≡ row_after (L.records row.now) bytes.old }
    ensures decides { Decides (Expandable (L.records row.now) (length bytes.old)) (expand_conditions (L.records row.now) (length bytes.old)) result.outcome }
    ensures expands { Expands (L.records row.now) bytes.old (number_in result.outcome) result.count bytes.new }
{
    let answer = replay::expand_answer(audit::<L>(row), bytes.len());
    let n = replay::to_paint(answer, L::count(row));
    paint::<L>(row, bytes, n);
    answer
}

// Writes the log of the answers to the front of a lent row of records.
pub fn write_log(answers: &[u8], records: &mut [Run]) -> Logged
    ensures answer { result ≡ write_answer answers.now (length records.old) }
    ensures records { records.new ≡ log_after answers.now records.old }
    ensures decides { Decides (Writable answers.now (length records.old)) (write_conditions answers.now (length records.old)) result.outcome }
    ensures writes { Writes answers.now records.old (number_in result.outcome) result.count records.new }
{
    write::<Structs>(answers, records)
}

// Fills a lent row of bytes with the answers of the records.
pub fn expand_log(records: &[Run], bytes: &mut [u8]) -> Logged
    ensures answer { result ≡ expand_answer records.now (length bytes.old) }
    ensures bytes { bytes.new ≡ row_after records.now bytes.old }
    ensures decides { Decides (Expandable records.now (length bytes.old)) (expand_conditions records.now (length bytes.old)) result.outcome }
    ensures expands { Expands records.now bytes.old (number_in result.outcome) result.count bytes.new }
{
    expand::<Structs>(records, bytes)
}
