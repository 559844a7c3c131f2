// Moves the table on standard input to the new form, on standard output. A refusal is said on standard error.
#![tactic(auto)]

fn main(rt: HostRuntime) {
    let mut buffer = [0u8; 131];
    let length = console::read_next(&mut rt.stdin(), &mut buffer, 131);
    let moved = movereport::to_new(&buffer[..length]);
    console::show(&mut rt.stdout(), &mut rt.stderr(), moved.table);
    console::warn(&mut rt.stderr(), moved.refusal);
}
