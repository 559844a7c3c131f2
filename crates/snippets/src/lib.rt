// The lines of Rattle that docs/CALLING.md shows, as they stand there, in functions that are proved.
#![tactic(auto)]

ghost use Rattle.std.specs.Prelude.{◌≡◌, [], ◌∷◌, ◌≢◌, ◌≤◌, min};
ghost use Rattle.oldform.specs.Limits.{beside};
ghost use Rattle.planner.specs.Plan.{plan_of};
ghost use Rattle.planner.specs.declared.Verdict.TheVariants.{Spent};
ghost use Rattle.ceiling.specs.Ceiling.{ceiling_of};
ghost use Rattle.runner.specs.Answers.{tick_answer};
ghost use Rattle.snippets.specs.Shown.{first_tick};

use planner::Allocation;
use runner::Ticked;

// The plan with the step ceiling as the limit, or with the largest limit there is: not spent, if the ceiling is a limit.
fn plan_within_ceiling(table: &[u8], charge: u32, cores: &[u8]) -> Allocation
    ensures answer { result ≡ plan_of (beside table.now charge cores.now) (min (ceiling_of (beside table.now charge cores.now)).ceiling 4294967295) }
    ensures unspent { (ceiling_of (beside table.now charge cores.now)).ceiling ≤ 4294967295 → result.verdict ≢ Spent }
{
    let most = ceiling::step_ceiling(table, charge, cores).ceiling;
    let limit = if most <= 4294967295 {
        most as u32
    } else {
        4294967295
    };
    let plan = planner::plan(table, charge, cores, limit);
    plan
}

// The first tick of core 1 of a plan, on a board with a switch charge of 1.
fn first_tick(table: &[u8], cores: &[u8], n: usize, requests: [u32; 16]) -> Ticked
    requires { n ≤ 16 }
    ensures { tick_answer result ≡ first_tick table.now cores.now n requests }
{
    let charge = 1;
    let plan = planner::plan(table, charge, cores, 1000000);
    let placement = plan.placement;
    let started = start::fresh(table, charge, cores, &placement[..n], 1);
    let ticked = started.core.tick(requests);
    ticked
}

// The plan of five tasks, the first tied to core 2 and the fourth to core 1.
fn tied_plan(table: &[u8]) -> Allocation
    ensures { result ≡ plan_of (beside table.now 0 (2 ∷ 3 ∷ 3 ∷ 1 ∷ 3 ∷ [])) 1000000 }
{
    let cores = [2u8, 3, 3, 1, 3];
    let plan = planner::plan(table, 0, &cores[..], 1000000);
    plan
}
