// The walk over placements as nested loops, on demands in planning order.
#![tactic(auto)]

ghost use Rattle.std.specs.Prelude.{◌≡◌, take};
ghost use Rattle.allocation.specs.Placement.{problem_of};
ghost use Rattle.allocation.specs.Walk.{answer};
ghost use Rattle.walk.specs.Given.{Prepared, found_of};

// What the walk found: the stored placement in planning order, entries beyond the tasks 0.
#[derive(Clone, Copy)]
pub struct Found {
    pub placement: [u8; 16],
    pub rejected: u32,
    pub steps: u32,
    pub spent: bool,
}

// The walk itself. `path` holds the choices made, `loads` the cores' loads, `out` the rejected demand, `best` the stored
// placement, and `next` how many choices have been tried for the task at `depth`: the cores from 1 upward, then leaving
// it out. Nested loops with labels, and placement and loads by value, are the paper's form.
pub fn walk(
    demands: [u32; 16],
    affinity: [u8; 16],
    twins: [bool; 16],
    n: usize,
    m: u32,
    h: u32,
    total: u32,
    excess: u32,
    limit: u32,
) -> Found
    requires { Prepared demands affinity twins n m h total excess }
    ensures { result ≡ found_of (answer (problem_of h m (take n demands) (take n affinity)) limit) }
{
    let deepest = n - 1;
    let mut path = [0u8; 16];
    let mut loads = [0u32; 4];
    let mut out = 0u32;
    let mut best = [0u8; 16];
    let mut rejected = total;
    let mut bound = total + 1;
    let mut steps = 0u32;
    let mut spent = false;
    let mut depth = 0usize;
    let mut next = 0u32;
    'tasks: loop {
        'choices: loop {
            let mut c = 0u32;
            let demand = demands[depth];
            if next < m {
                if !twins::is_tried(affinity[depth], next, &loads, &twins, demand, h) {
                    next += 1;
                    continue 'choices;
                }
                c = next + 1;
            } else if m < next || bound <= out + demand {
                // No choice is left: the walk is complete, or the task before takes its choice back.
                if depth == 0 {
                    break 'tasks;
                }
                depth -= 1;
                let last = path[depth] as u32;
                let freed = demands[depth];
                loads = blend::with_less(loads, last, freed);
                out -= blend::pick(last == 0, freed, 0);
                next = branch::resume(m, last, out, bound);
                break 'choices;
            }
            // Choice c is entered.
            if steps == limit {
                spent = true;
                break 'tasks;
            }
            steps += 1;
            path = paths::with_choice(path, (depth % 256) as u8, c as u8);
            if depth < deepest {
                loads = blend::with_more(loads, c, demand);
                out += blend::pick(c == 0, demand, 0);
                depth += 1;
                next = 0;
                break 'choices;
            }
            // The last task's choice completes a placement.
            best = path;
            rejected = out + blend::pick(c == 0, demand, 0);
            bound = rejected;
            // No placement rejects less than the excess: nothing is entered any more.
            if bound <= excess {
                break 'tasks;
            }
            // No further choice of the last task rejects less.
            next = m + 1;
        }
    }
    Found {
        placement: best,
        rejected,
        steps,
        spent,
    }
}
