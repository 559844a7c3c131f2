// Expanding a run log: the tests of the records and of the row, and the ticks of one record.
#![tactic(auto)]

ghost use Rattle.std.specs.Prelude.{◌≡◌, ◌≤◌};
ghost use Rattle.runs.specs.Fit.{unfit};
ghost use Rattle.replay.specs.Tests.{audit_start, audited, audit_answer, painted, to_paint};

use refusal::Cause;
use runs::{Logged, Run};

// What looking at records in order has found while all were fit: the task of the last, the sum of the lengths, and how many were looked at.
#[derive(Clone, Copy)]
pub struct Audit {
    pub before: u32,
    pub sum: u32,
    pub seen: usize,
}

// Nothing was looked at: 17 is no task's number.
pub fn audit_start() -> Audit
    ensures { result ≡ audit_start }
{
    Audit {
        before: 17,
        sum: 0,
        seen: 0,
    }
}

// Whether a record cannot stand after one of the task `before` and lengths that add up to `sum`.
fn is_unfit(before: u32, sum: u32, r: Run) -> bool
    requires { sum ≤ 60000 }
    ensures { result ≡ unfit before sum r }
{
    r.task > 16 || r.task == before || r.length == 0 || r.first != sum || 60000 - sum < r.length
}

// One record more is looked at: what was found with it, or its number, counted from 1, if it is unfit.
pub fn look_at(a: Audit, r: Run) -> Result<Audit, usize>
    requires { (a.seen ≤ a.sum) × (a.sum ≤ 60000) }
    ensures { result ≡ audited a r }
{
    if is_unfit(a.before, a.sum, r) {
        return Err(a.seen + 1);
    }
    Ok(Audit {
        before: r.task,
        sum: a.sum + r.length,
        seen: a.seen + 1,
    })
}

// The answer for a row of `room` bytes: number 25 of a record, then of the row's length, or how many answers there are.
pub fn expand_answer(found: Result<Audit, usize>, room: usize) -> Logged
    ensures { result ≡ audit_answer found room }
{
    match found {
        Ok(a) => {
            let length = refusal::refuse_if(a.sum as usize != room, Cause::Record(0));
            runs::answer(length, a.sum as usize)
        }
        Err(place) => runs::answer(Err(Cause::Record(place)), 0),
    }
}

// How many records to expand: all, or none if the call is refused.
pub fn to_paint(answer: Logged, n: usize) -> usize
    ensures { result ≡ to_paint answer n }
{
    let outcome = answer.outcome;
    match outcome {
        Err(_) => 0,
        Ok(()) => n,
    }
}

// Fills in the ticks of one record, if its task is one and its ticks lie in the row.
pub fn paint(row: &mut [u8], r: Run)
    ensures { row.new ≡ painted row.old r }
{
    let first = r.first as usize;
    let n = r.length as usize;
    if 16 < r.task {
        return;
    }
    if row.len() < first + n {
        return;
    }
    row[first..first + n].fill(r.task as u8);
}
