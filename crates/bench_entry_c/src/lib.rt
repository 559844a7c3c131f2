// What the benchmarks call from C.
#![tactic(auto)]

ghost use Rattle.std.specs.Prelude.{◌≡◌};
ghost use Rattle.planner.specs.Plan.{plan_of};
ghost use Rattle.oldform.specs.Limits.{beside};
ghost use Rattle.bench_entry.specs.Ticks.{bench_sum};

// Plans a table on a board with this charge, with these core bytes, and returns the number of steps.
#[unsafe(no_mangle)]
pub extern "C" fn bench_search(table: &[u8], charge: u32, cores: &[u8], limit: u32) -> u32
    ensures { result ≡ (plan_of (beside table.now charge cores.now) limit).steps }
{
    bench_entry::bench_search(table, charge, cores, limit)
}

// Runs a table's tasks, which may use every core, all on core 1 of a board with this charge, with full requests, and returns the sum of the
// tasks run and of the late tasks.
#[unsafe(no_mangle)]
pub extern "C" fn bench_tick(table: &[u8], charge: u32, ticks: u32) -> u64
    ensures { result ≡ bench_sum table.now charge ticks }
{
    bench_entry::bench_tick(table, charge, ticks)
}
