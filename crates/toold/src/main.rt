// Moves the table on standard input, in the new form, back to the old form, on standard output. A refusal is said on standard error.
#![tactic(auto)]

fn main(rt: HostRuntime) {
    let mut buffer = [0u8; 149];
    let length = console::read_next(&mut rt.stdin(), &mut buffer, 149);
    let moved = movereport::to_old(&buffer[..length]);
    console::show(&mut rt.stdout(), &mut rt.stderr(), moved.table);
    console::warn(&mut rt.stderr(), moved.refusal);
}
