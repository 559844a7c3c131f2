// A relation between the numbers 0 to 16 as a row of cells: which task feeds which, one pair more, the lowest task on a circle.
#![tactic(auto)]

ghost use Rattle.std.specs.Prelude.{◌≡◌, ◌≤◌, ◌<◌};
ghost use Rattle.numbers.specs.First.{first, found};
ghost use Rattle.precedence.specs.Circles.{through, reach, circular};
ghost use Rattle.relation.specs.Cells.{edge, Cells, with_pair, through_at};

// Whether the cells say that task `a` feeds task `b`.
pub fn feeds(cells: &[bool; 289], a: usize, b: usize) -> bool
    requires { (a < 17) × (b < 17) }
    ensures { result ≡ edge cells.now a b }
{
    let c = a * 17 + b;
    cells[c]
}

// The cells that say so too; numbers above 16 change nothing.
pub fn with_pair(mut cells: [bool; 289], a: usize, b: usize) -> [bool; 289]
    ensures { Cells result (with_pair (edge cells) a b) }
{
    if a <= 16 && b <= 16 {
        cells[a * 17 + b] = true;
    }
    cells
}

// Cell `c` after a step of the closure: as before, or by way of task `k`.
fn through_cell(cells: &[bool; 289], k: usize, c: usize) -> bool
    requires { (k < 17) × (c < 289) }
    ensures { result ≡ through_at cells.now k c }
{
    let into = c / 17 * 17 + k;
    let from = k * 17 + c % 17;
    cells[c] | (cells[into] & cells[from])
}

// A step of the closure.
fn by_way_of(cells: [bool; 289], k: usize) -> [bool; 289]
    requires { k < 17 }
    ensures { Cells result (through (edge cells) k) }
{
    let mut next = cells;
    for (c, cell) in next.iter_mut().enumerate() {
        *cell = through_cell(&cells, k, c);
    }
    next
}

// The closure: from which task a path of pairs leads to which, on which every task in between is one of 1 to `n`.
fn closure(cells: [bool; 289], n: usize) -> [bool; 289]
    requires { n ≤ 16 }
    ensures { Cells result (reach (edge cells) n) }
{
    let mut reached = cells;
    for k in 0..n {
        // By a variable of its own: the check does not cover a call that gives an array to a variable that it is lent.
        let next = by_way_of(reached, k + 1);
        reached = next;
    }
    reached
}

// The lowest of the tasks 1 to `n` on a circle.
pub fn circle_task(cells: [bool; 289], n: usize) -> Option<usize>
    requires { n ≤ 16 }
    ensures { result ≡ found (first (circular (edge cells) n) n) }
{
    let reached = closure(cells, n);
    numbers::first(n, |k| feeds(&reached, k + 1, k + 1))
}
