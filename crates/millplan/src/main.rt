// Prints the report of the table on standard input, in the new form.
#![tactic(auto)]

fn main(rt: HostRuntime) {
    let mut buffer = [0u8; 149];
    let length = console::read_next(&mut rt.stdin(), &mut buffer, 149);
    let report = report::report(&buffer[..length]);
    console::show(&mut rt.stdout(), &mut rt.stderr(), report);
}
