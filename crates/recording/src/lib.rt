// Writing a run log: the tests of the answers and of the row, the end of each run, and the record that it makes.
#![tactic(auto)]

ghost use Rattle.std.specs.Prelude.{◌≡◌, ◌<◌, ◌≤◌, ◌+◌, length, drop, get_or};
ghost use Rattle.runs.specs.Runs.{lead};
ghost use Rattle.recording.specs.Tests.{Surveyed, write_answer};

use refusal::Cause;
use runs::{Logged, Run};

// The most answers that a log holds.
pub const MOST: usize = 60000;

// The run counter: one pass that finds how many records the answers need, or stops at the first above 16: its number, counted from 1.
fn look_through(answers: &[u8]) -> Result<usize, usize>
    ensures { Surveyed answers.now result }
{
    let mut needed: usize = 0;
    let mut before: u8 = 17;
    for (k, task) in answers.iter().enumerate() {
        if 16 < *task {
            return Err(k + 1);
        }
        if *task != before {
            needed += 1;
        }
        before = *task;
    }
    Ok(needed)
}

// Where the run that begins at `at` ends: the tick after its last.
pub fn run_end(answers: &[u8], at: usize) -> usize
    requires { at < length answers.now }
    ensures { result ≡ at + 1 + lead (get_or answers.now at 0) (drop (at + 1) answers.now) }
{
    let task = answers[at];
    for end in at + 1..answers.len() {
        if answers[end] != task {
            return end;
        }
    }
    answers.len()
}

// The answer for a row of `room` records: number 23 for too many answers, or else for one above 16, then 24, or how many records are needed.
pub fn write_answer(answers: &[u8], room: usize) -> Logged
    ensures { result ≡ write_answer answers.now room }
{
    let long = refusal::refuse_if(MOST < answers.len(), Cause::Answer(0));
    match long {
        Err(_) => runs::answer(long, 0),
        Ok(()) => match look_through(answers) {
            Ok(needed) => {
                let fits = refusal::room_test(Cause::LogRoom, needed, room);
                runs::answer(fits, needed)
            }
            Err(place) => runs::answer(Err(Cause::Answer(place)), 0),
        },
    }
}

// The record of the answers from `at` up to `end`.
pub fn run_of(answers: &[u8], at: usize, end: usize) -> Run
    requires { (at < length answers.now) × ((at ≤ end) × (end ≤ 60000)) }
    ensures { (result.task ≡ get_or answers.now at 0) × ((result.first ≡ at) × (result.first + result.length ≡ end)) }
{
    Run {
        task: answers[at] as u32,
        first: at as u32,
        length: (end - at) as u32,
    }
}
