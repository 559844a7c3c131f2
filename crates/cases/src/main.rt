// One program over the library for tests from outside: it runs the cases on standard input and prints their lines.
// A case is its code in one byte, then its blocks. Each code has a file in `caselines`, which names its blocks.
#![tactic(auto)]

ghost use Rattle.std.specs.Prelude.{◌≤◌, length, IfOk};
ghost use Rattle.logwords.specs.Words.{records_in};

use caselines::outputs::PIECE;
use runner::Core;
use runs::Logged;
use std::io::{Stderr, Stdin, Stdout};
use storing::Transfer;
use taskset::Reading;
use text::Text;

// Why the program stops: the input ended, a case is not whole or has no such code, or the output failed.
#[derive(Clone, Copy)]
struct Stop;

// Where the cases come from, where their lines go, and where it is said that the output failed.
#[derive(Drop)]
struct Streams {
    input: Stdin,
    output: Stdout,
    errors: Stderr,
}

impl Streams {
    // Prints a text.
    fn show(&mut self, t: Text) -> Result<(), Stop> {
        if console::show(&mut self.output, &mut self.errors, t).whole {
            Ok(())
        } else {
            Err(Stop)
        }
    }

    // Prints numbers, in pieces, and ends the line.
    fn show_numbers<T: Copy + Into<u64>>(&mut self, numbers: &[T]) -> Result<(), Stop> {
        for piece in numbers.chunks(PIECE) {
            self.show(caselines::outputs::piece(piece))?;
        }
        self.show(text::append_bytes(text::empty(), b"\n"))
    }

    // Reads so many bytes.
    fn bytes<const N: usize>(&mut self) -> Result<[u8; N], Stop> {
        let mut bytes = [0u8; N];
        if console::read_next(&mut self.input, &mut bytes, N) < N {
            return Err(Stop);
        }
        Ok(bytes)
    }

    // Reads a block into a buffer, which is as long as the block may be, and returns its bytes.
    fn block<'a>(&mut self, buffer: &'a mut [u8]) -> Result<&'a mut [u8], Stop> {
        let block = caseblocks::read_block(&mut self.input, buffer);
        if block.whole {
            Ok(&mut buffer[..block.length])
        } else {
            Err(Stop)
        }
    }

    // Reads a block of exactly so many bytes.
    fn exactly<const N: usize>(&mut self) -> Result<[u8; N], Stop> {
        let mut bytes = [0u8; N];
        let block = caseblocks::read_block(&mut self.input, &mut bytes);
        if block.whole && block.length == N {
            Ok(bytes)
        } else {
            Err(Stop)
        }
    }

    // Reads a number, a block of 4 bytes.
    fn number(&mut self) -> Result<u32, Stop> {
        let bytes = self.exactly::<4>()?;
        Ok(wire::word(&bytes, 0))
    }

    // Reads sixteen numbers, a block of 64 bytes.
    fn sixteen(&mut self) -> Result<[u32; 16], Stop> {
        let bytes = self.exactly::<64>()?;
        Ok(caseblocks::numbers_of(&bytes))
    }
}

// Code 1: reads a table and prints its line.
fn run_table(streams: &mut Streams) -> Result<(), Stop> {
    let mut table = [0u8; 1024];
    let table = streams.block(&mut table)?;
    let reading = oldform::read_alone(table);
    streams.show(caselines::tables::table_line(reading))
}

// Codes 7 and 12: reads a table in the new form, as any or as one for bus drives, and prints its line.
fn run_setup<F: Fn(&[u8]) -> Reading>(streams: &mut Streams, read: F) -> Result<(), Stop>
    requires { F.IsAlwaysCallable read }
{
    let mut table = [0u8; 1024];
    let table = streams.block(&mut table)?;
    streams.show(caselines::newtables::new_line(read(table)))
}

// Codes 2, 3, 5 and 6: reads a table, a charge and core bytes, and runs the case on them.
fn run_on_board<F: Fn(&mut Streams, &[u8], u32, &[u8]) -> Result<(), Stop>>(
    streams: &mut Streams,
    run: F,
) -> Result<(), Stop>
    requires { F.IsAlwaysCallable run }
{
    let mut table = [0u8; 1024];
    let table = streams.block(&mut table)?;
    let charge = streams.number()?;
    let mut cores = [0u8; 1024];
    let cores = streams.block(&mut cores)?;
    run(streams, table, charge, cores)
}

// Code 2: reads a limit and prints the plan's line.
fn run_plan(streams: &mut Streams, table: &[u8], charge: u32, cores: &[u8]) -> Result<(), Stop> {
    let limit = streams.number()?;
    let plan = planner::plan(table, charge, cores, limit);
    streams.show(caselines::planlines::plan_line(plan))
}

// Code 3: reads a placement, core number and tick count, prints the core's line and runs its ticks.
fn run_core(streams: &mut Streams, table: &[u8], charge: u32, cores: &[u8]) -> Result<(), Stop> {
    let mut placement = [0u8; 1024];
    let placement = streams.block(&mut placement)?;
    let [number] = streams.exactly::<1>()?;
    let count = streams.number()?;
    let started = start::fresh(table, charge, cores, placement, number);
    streams.show(caselines::cores::core_line(started))?;
    let outcome = started.outcome;
    let accepted = matches!(outcome, Ok(()));
    run_ticks(streams, accepted.then_some(started.core), count)
}

// Reads the requests of each tick, and if the core was accepted makes the tick and prints its line.
fn run_ticks(streams: &mut Streams, core: Option<Core>, count: u32) -> Result<(), Stop> {
    let mut present = core;
    for _ in 0..count {
        let requests = streams.sixteen()?;
        if let Some(core) = present {
            let ticked = core.tick(requests);
            streams.show(caselines::cores::tick_line(ticked))?;
            present = Some(ticked.core);
        }
    }
    Ok(())
}

// Code 5: prints the quick plan's line.
fn run_quick(streams: &mut Streams, table: &[u8], charge: u32, cores: &[u8]) -> Result<(), Stop> {
    let plan = quick::quick_plan(table, charge, cores);
    streams.show(caselines::quicks::quick_line(plan))
}

// Code 6: prints the step ceiling's line.
fn run_ceiling(streams: &mut Streams, table: &[u8], charge: u32, cores: &[u8]) -> Result<(), Stop> {
    let answer = ceiling::step_ceiling(table, charge, cores);
    streams.show(caselines::ceilings::ceiling_line(answer))
}

// Code 13: reads a table for bus drives and a limit, and prints the plan's line.
fn run_bus_plan(streams: &mut Streams) -> Result<(), Stop> {
    let mut table = [0u8; 1024];
    let table = streams.block(&mut table)?;
    let limit = streams.number()?;
    let plan = bus::plan_bus(table, limit);
    streams.show(caselines::planlines::plan_line(plan))
}

// Code 4: reads a charge, slots and sixteen requests, and prints the tick's line.
fn run_record(streams: &mut Streams) -> Result<(), Stop> {
    let charge = streams.number()?;
    let record = streams.exactly::<256>()?;
    let requests = streams.sixteen()?;
    let slots = caseblocks::slots_in(&record);
    let core = Core { slots, charge };
    streams.show(caselines::recordlines::record_line(core.tick(requests)))
}

// Prints the line of a call that stored a table.
fn show_stored(streams: &mut Streams, answer: Transfer, out: &[u8]) -> Result<(), Stop> {
    streams.show(caselines::outputs::answer_start(answer))?;
    streams.show_numbers(out)
}

// Code 8: reads fields and a lent output, writes the fields to it and prints the line.
fn run_writer(streams: &mut Streams) -> Result<(), Stop> {
    let n = streams.number()?;
    let m = streams.number()?;
    let charge = streams.number()?;
    let periods = streams.sixteen()?;
    let budgets = streams.sixteen()?;
    let affinity = streams.exactly::<16>()?;
    let fields = caseblocks::fields_in(n, m, charge, periods, budgets, affinity);
    let mut out = [0u8; 1024];
    let out = streams.block(&mut out)?;
    let answer = transfer::write_new(fields, out);
    show_stored(streams, answer, out)
}

// Codes 9 and 10: reads a table and a lent output, moves the table to it and prints the line.
fn run_move<F: Fn(&[u8], &mut [u8]) -> Transfer>(
    streams: &mut Streams,
    shift: F,
) -> Result<(), Stop>
    requires { F.IsAlwaysCallable shift }
{
    let mut table = [0u8; 1024];
    let table = streams.block(&mut table)?;
    let mut out = [0u8; 1024];
    let out = streams.block(&mut out)?;
    let answer = shift(table, out);
    show_stored(streams, answer, out)
}

// Code 11: reads a table and a dependency list, checks the list and prints the line.
fn run_dependencies(streams: &mut Streams) -> Result<(), Stop> {
    let mut table = [0u8; 1024];
    let table = streams.block(&mut table)?;
    let mut list = [0u8; 1024];
    let list = streams.block(&mut list)?;
    let answer = dependencies::check_dependencies(table, list);
    streams.show(caselines::orders::order_line(answer))
}

// Prints number, place and count.
fn show_answer(streams: &mut Streams, answer: Logged) -> Result<(), Stop> {
    let outcome = answer.outcome;
    let counted = Transfer {
        outcome: outcome,
        length: answer.count,
    };
    streams.show(caselines::outputs::answer_start(counted))
}

// Reads `n` records into a row of numbers.
fn read_runs(streams: &mut Streams, words: &mut [u32], n: usize) -> Result<(), Stop>
    requires { n ≤ length (records_in words.old) }
{
    for k in 0..n {
        let bytes = streams.bytes::<12>()?;
        logwords::put_run(words, k, caseblocks::run_in(&bytes));
    }
    Ok(())
}

// Reads records into the front of a row of numbers, which is as long as they may be, and returns their numbers. The length has to be that
// of whole records.
fn read_records<'a>(streams: &mut Streams, words: &'a mut [u32]) -> Result<&'a mut [u32], Stop>
    ensures { IfOk result (λ part. length part.now ≤ length words.old) }
{
    let head = streams.bytes::<4>()?;
    let size = wire::word(&head, 0) as usize;
    let n = size / 12;
    if size % 12 != 0 || words.len() / 3 < n {
        return Err(Stop);
    }
    read_runs(streams, words, n)?;
    Ok(&mut words[..3 * n])
}

// Code 14: reads answers and records, writes the answers into the records and prints the line.
fn run_log_writer(streams: &mut Streams) -> Result<(), Stop> {
    let mut answers = [0u8; 65535];
    let answers = streams.block(&mut answers)?;
    let mut words = [0u32; 180000];
    let words = read_records(streams, &mut words)?;
    let answer = logwords::write_words(answers, words);
    show_answer(streams, answer)?;
    streams.show_numbers(words)
}

// Code 15: reads records and an output, expands the records into the output and prints the line.
fn run_log_expander(streams: &mut Streams) -> Result<(), Stop> {
    let mut words = [0u32; 180000];
    let words = read_records(streams, &mut words)?;
    let mut out = [0u8; 65535];
    let out = streams.block(&mut out)?;
    let answer = logwords::expand_words(words, out);
    show_answer(streams, answer)?;
    streams.show_numbers(out)
}

// Runs a case by its code.
fn run_case(streams: &mut Streams, code: u8) -> Result<(), Stop> {
    match code {
        1 => run_table(streams),
        2 => run_on_board(streams, run_plan),
        3 => run_on_board(streams, run_core),
        4 => run_record(streams),
        5 => run_on_board(streams, run_quick),
        6 => run_on_board(streams, run_ceiling),
        7 => run_setup(streams, newform::read_new),
        8 => run_writer(streams),
        9 => run_move(streams, transfer::to_new),
        10 => run_move(streams, transfer::to_old),
        11 => run_dependencies(streams),
        12 => run_setup(streams, bus::read_bus),
        13 => run_bus_plan(streams),
        14 => run_log_writer(streams),
        15 => run_log_expander(streams),
        _ => Err(Stop),
    }
}

// Reads a code and runs its case.
fn run_next(streams: &mut Streams) -> Result<(), Stop> {
    let [code] = streams.bytes::<1>()?;
    run_case(streams, code)
}

// One case after another, until the input ends or one fails. A loop has to end: the count bounds this one, and no input reaches it.
fn main(rt: HostRuntime) {
    let mut streams = Streams {
        input: rt.stdin(),
        output: rt.stdout(),
        errors: rt.stderr(),
    };
    for _ in 0..u64::MAX {
        if run_next(&mut streams).is_err() {
            return;
        }
    }
}
