// Prints the order of the tasks of the table on standard input, in the new form, by the dependency list behind it. The longest table and the
// longest list have 148 and 129 bytes: an input of one byte more is refused, whatever follows.
#![tactic(auto)]

fn main(rt: HostRuntime) {
    let mut buffer = [0u8; 278];
    let length = console::read_next(&mut rt.stdin(), &mut buffer, 278);
    let report = feedsreport::report(&buffer[..length]);
    console::show(&mut rt.stdout(), &mut rt.stderr(), report);
}
