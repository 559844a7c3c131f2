// The two entries by which C writes and expands a run log.
#![tactic(auto)]

ghost use Rattle.std.specs.Prelude.{◌≡◌, length};
ghost use Rattle.recording.specs.Tests.{write_answer, log_after};
ghost use Rattle.recording.specs.Limits.{Writable, write_conditions};
ghost use Rattle.recording.specs.Promise.{Writes};
ghost use Rattle.replay.specs.Tests.{expand_answer, row_after};
ghost use Rattle.replay.specs.Limits.{Expandable, expand_conditions};
ghost use Rattle.replay.specs.Promise.{Expands};
ghost use Rattle.logentry.specs.Reply.{reply_of, Replies};

use logentry::Reply;
use runs::Run;

// Writes the log of the answers to the front of `runs`.
#[unsafe(no_mangle)]
pub extern "C" fn millplan_log_write(answers: &[u8], runs: &mut [Run]) -> Reply
    ensures reply { result ≡ reply_of (write_answer answers.now (length runs.old)) }
    ensures runs { runs.new ≡ log_after answers.now runs.old }
    ensures decides { Replies (Writable answers.now (length runs.old)) (write_conditions answers.now (length runs.old)) result }
    ensures writes { Writes answers.now runs.old result.number result.count runs.new }
{
    logentry::millplan_log_write(answers, runs)
}

// Fills `answers` from the records.
#[unsafe(no_mangle)]
pub extern "C" fn millplan_log_expand(runs: &[Run], answers: &mut [u8]) -> Reply
    ensures reply { result ≡ reply_of (expand_answer runs.now (length answers.old)) }
    ensures answers { answers.new ≡ row_after runs.now answers.old }
    ensures decides { Replies (Expandable runs.now (length answers.old)) (expand_conditions runs.now (length answers.old)) result }
    ensures expands { Expands runs.now answers.old result.number result.count answers.new }
{
    logentry::millplan_log_expand(runs, answers)
}
