// Rows put into the order of a list of the tasks, and back into table order.
#![tactic(auto)]

ghost use Rattle.std.specs.Prelude.{◌≡◌, take};
ghost use Rattle.numbers.specs.Rows.{row, entry};
ghost use Rattle.numbers.specs.Reorder.{scatter};
ghost use Rattle.reorder.specs.Listed.{Listed, gathered};

// The values of the first `n` tasks of an order, in that order, and `zero` up to sixteen. A loop, and not `numbers::row`, whose row is
// copied once more on the way: the firmware's entry has little stack.
pub fn in_planning_order<T: Copy>(zero: T, values: [T; 16], order: [usize; 16], n: usize) -> [T; 16]
    requires { Listed order n }
    ensures { result ≡ row zero n (gathered zero (take n order) values) }
{
    let mut row = [zero; 16];
    for k in 0..n {
        row[k] = values[order[k]];
    }
    row
}

// The choices of the first `n` tasks of an order, put back into table order, and zeros up to sixteen.
pub fn in_table_order(choices: [u8; 16], order: [usize; 16], n: usize) -> [u8; 16]
    requires { Listed order n }
    ensures { result ≡ row 0 n (entry (scatter (take n order) choices)) }
{
    let mut placement = [0u8; 16];
    for k in 0..n {
        placement[order[k]] = choices[k];
    }
    placement
}
