// The order of tasks that feed each other, from the cells that say which feeds which.
#![tactic(auto)]

ghost use Rattle.std.specs.Prelude.{◌≡◌, ◌≤◌, ◌<◌};
ghost use Rattle.numbers.specs.Rows.{padded};
ghost use Rattle.precedence.specs.Sequence.{waits as waits_of, next_task, ordered};
ghost use Rattle.relation.specs.Cells.{edge};
ghost use Rattle.sequencing.specs.Marks.{marked};

// Whether some task of 1 to `n` feeds task `t` and does not yet stand.
fn waits(cells: &[bool; 289], placed: &[bool; 17], n: usize, t: usize) -> bool
    requires { (n ≤ 16) × (t < 17) }
    ensures { result ≡ waits_of (edge cells.now) n (marked placed.now) t }
{
    numbers::first(n, |k| relation::feeds(cells, k + 1, t) & !placed[k + 1]).is_some()
}

// The lowest ready task; 0 if there is none.
fn next_task(cells: &[bool; 289], placed: &[bool; 17], n: usize) -> usize
    requires { n ≤ 16 }
    ensures { (result ≡ next_task (edge cells.now) n (marked placed.now)) × (result < 17) }
{
    numbers::first(n, |k| !placed[k + 1] & !waits(cells, placed, n, k + 1)).unwrap_or(0)
}

// The order of the tasks 1 to `n`, each after those that feed it, the lowest ready number first; zeros up to sixteen.
pub fn task_order(cells: [bool; 289], n: usize) -> [u8; 16]
    requires { n ≤ 16 }
    ensures { result ≡ padded (ordered (edge cells) n n) }
{
    let mut order = [0u8; 16];
    let mut placed = [false; 17];
    for i in 0..n {
        let t = next_task(&cells, &placed, n);
        order[i] = t as u8;
        placed[t] = true;
    }
    order
}
