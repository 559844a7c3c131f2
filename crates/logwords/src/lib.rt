// The run log's two calls over records that stand in a row of numbers, three a record: for callers that cannot lend a row of structs.
#![tactic(auto)]

ghost use Rattle.std.specs.Prelude.{◌≡◌, ◌<◌, length};
ghost use Rattle.refusal.specs.Causes.{number_in};
ghost use Rattle.refusal.specs.Conditions.{Decides};
ghost use Rattle.runs.specs.Log.{run_at};
ghost use Rattle.recording.specs.Tests.{write_answer};
ghost use Rattle.recording.specs.Limits.{Writable, write_conditions};
ghost use Rattle.recording.specs.Promise.{Writes};
ghost use Rattle.replay.specs.Tests.{expand_answer, row_after};
ghost use Rattle.replay.specs.Limits.{Expandable, expand_conditions};
ghost use Rattle.replay.specs.Promise.{Expands};
ghost use Rattle.logwords.specs.Words.{records_in, stored, with_records, words_after};
ghost use Rattle.logwords.specs.Held.{words_hold};

use runlog::Layout;
use runs::{Logged, Run};

// Stores record `k`, counted from 0.
pub fn put_run(words: &mut [u32], k: usize, r: Run)
    requires { k < length (records_in words.old) }
    ensures { words.new ≡ stored words.old k r }
{
    let at = 3 * k;
    words[at] = r.task;
    words[at + 1] = r.first;
    words[at + 2] = r.length;
}

// Record `k`, counted from 0.
fn run_in(words: &[u32], k: usize) -> Run
    requires { k < length (records_in words.now) }
    ensures { result ≡ run_at (records_in words.now) k }
{
    let at = 3 * k;
    Run {
        task: words[at],
        first: words[at + 1],
        length: words[at + 2],
    }
}

// A row of numbers, three a record.
pub struct Words;

impl Layout for Words {
    type Part = u32;

    ghost records = { records_in };

    ghost holding = { with_records };

    fn count(words: &[u32]) -> usize {
        words.len() / 3
    }

    fn record(words: &[u32], k: usize) -> Run {
        run_in(words, k)
    }

    fn put(words: &mut [u32], k: usize, r: Run) {
        put_run(words, k, r);
    }

    ghost laws = { words_hold };
}

// Writes the log of the answers to the front of the row.
pub fn write_words(answers: &[u8], words: &mut [u32]) -> Logged
    ensures answer { result ≡ write_answer answers.now (length (records_in words.old)) }
    ensures words { words.new ≡ words_after answers.now words.old }
    ensures decides { Decides (Writable answers.now (length (records_in words.old))) (write_conditions answers.now (length (records_in words.old))) result.outcome }
    ensures writes { Writes answers.now (records_in words.old) (number_in result.outcome) result.count (records_in words.new) }
{
    runlog::write::<Words>(answers, words)
}

// Fills a lent row of bytes with the answers of the records.
pub fn expand_words(words: &[u32], bytes: &mut [u8]) -> Logged
    ensures answer { result ≡ expand_answer (records_in words.now) (length bytes.old) }
    ensures bytes { bytes.new ≡ row_after (records_in words.now) bytes.old }
    ensures decides { Decides (Expandable (records_in words.now) (length bytes.old)) (expand_conditions (records_in words.now) (length bytes.old)) result.outcome }
    ensures expands { Expands (records_in words.now) bytes.old (number_in result.outcome) result.count bytes.new }
{
    runlog::expand::<Words>(words, bytes)
}
