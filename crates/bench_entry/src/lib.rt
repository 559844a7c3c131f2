// What the benchmarks call from C, by the exports of `bench_entry_c`.
#![tactic(auto)]

ghost use Rattle.std.specs.Prelude.{◌≡◌, ◌<◌};
ghost use Rattle.planner.specs.Plan.{plan_of};
ghost use Rattle.oldform.specs.Limits.{beside};
ghost use Rattle.bench_entry.specs.Ticks.{plus as plus_of, sum_of_tasks, bench_sum};

use runner::Core;

// Plans a table on a board with this charge, with these core bytes, and returns the number of steps.
pub fn bench_search(table: &[u8], charge: u32, cores: &[u8], limit: u32) -> u32
    ensures { result ≡ (plan_of (beside table.now charge cores.now) limit).steps }
{
    planner::plan(table, charge, cores, limit).steps
}

// A sum with one task more, in 32 bits.
fn plus(sum: u64, task: usize) -> u64
    requires { sum < 4294967296 }
    ensures { result ≡ plus_of sum task }
{
    (sum + (task % 65536) as u64) % 4294967296
}

// The sum of the tasks run and of the late tasks over some ticks of a record, each with full requests.
fn sum_of_tasks(core: Core, ticks: u32) -> u64
    ensures { result ≡ sum_of_tasks 0 core.charge core.slots ticks }
{
    let requests = [4294967295u32; 16];
    let mut now = core;
    let mut sum: u64 = 0;
    for _ in 0..ticks {
        let ticked = now.tick(requests);
        sum = plus(sum, ticked.run);
        sum = plus(sum, ticked.late);
        now = ticked.core;
    }
    sum
}

// Runs a table's tasks, which may use every core, all on core 1 of a board with this charge, with full requests, and returns the sum of the
// tasks run and of the late tasks.
pub fn bench_tick(table: &[u8], charge: u32, ticks: u32) -> u64
    ensures { result ≡ bench_sum table.now charge ticks }
{
    let n = wire::size(wire::byte(table, 0));
    if 16 < n {
        return 0;
    }
    let byte = affinity::every_core(wire::size(wire::byte(table, 1)));
    let every = [byte; 16];
    let placement = [1u8; 16];
    let started = start::fresh(table, charge, &every[..n], &placement[..n], 1);
    let core = started.core;
    sum_of_tasks(core, ticks)
}
