// The two calls by which C writes and expands a run log: their work and their contracts, which the exports of `logentry_c` repeat.
#![tactic(auto)]

ghost use Rattle.std.specs.Prelude.{◌≡◌, ◌≤◌, length};
ghost use Rattle.refusal.specs.Causes.{place_in};
ghost use Rattle.recording.specs.Tests.{write_answer, log_after};
ghost use Rattle.recording.specs.Limits.{Writable, write_conditions};
ghost use Rattle.recording.specs.Promise.{Writes};
ghost use Rattle.replay.specs.Tests.{expand_answer, row_after};
ghost use Rattle.replay.specs.Limits.{Expandable, expand_conditions};
ghost use Rattle.replay.specs.Promise.{Expands};
ghost use Rattle.logentry.specs.Reply.{reply_of, Replies};

use runs::{Logged, Run};

// An answer in the paper's numbers: the refusal's number and place, 0 and 0 if there is none, and the count.
#[repr(C)]
#[derive(Clone, Copy)]
pub struct Reply {
    pub number: u32,
    pub place: u32,
    pub count: u32,
}

// The answer of a call on a log, in numbers.
fn in_numbers(answer: Logged) -> Reply
    requires { (place_in answer.outcome ≤ 60001) × (answer.count ≤ 60000) }
    ensures { result ≡ reply_of answer }
{
    let outcome = answer.outcome;
    match outcome {
        Ok(()) => Reply {
            number: 0,
            place: 0,
            count: answer.count as u32,
        },
        Err(cause) => Reply {
            number: numbering::number(cause),
            place: numbering::place(cause) as u32,
            count: answer.count as u32,
        },
    }
}

// Writes the log of the answers to the front of `runs`.
pub fn millplan_log_write(answers: &[u8], runs: &mut [Run]) -> Reply
    ensures reply { result ≡ reply_of (write_answer answers.now (length runs.old)) }
    ensures runs { runs.new ≡ log_after answers.now runs.old }
    ensures decides { Replies (Writable answers.now (length runs.old)) (write_conditions answers.now (length runs.old)) result }
    ensures writes { Writes answers.now runs.old result.number result.count runs.new }
{
    let answer = runlog::write_log(answers, runs);
    in_numbers(answer)
}

// Fills `answers` from the records.
pub fn millplan_log_expand(runs: &[Run], answers: &mut [u8]) -> Reply
    ensures reply { result ≡ reply_of (expand_answer runs.now (length answers.old)) }
    ensures answers { answers.new ≡ row_after runs.now answers.old }
    ensures decides { Replies (Expandable runs.now (length answers.old)) (expand_conditions runs.now (length answers.old)) result }
    ensures expands { Expands runs.now answers.old result.number result.count answers.new }
{
    let answer = runlog::expand_log(runs, answers);
    in_numbers(answer)
}
