// Prints the listing of a journal, document 01's volume, that it reads from standard input: a line for each record, then the end state.
// The lines are made by crate journal_listing and written by crate command_list; here the volume is read.
#![tactic(auto)]

use journal::Rule;

fn main(rt: HostRuntime) {
    match command_io::arg_count(&rt) {
        1 => run(&rt, Rule::Plain),
        2 if command_io::is_argument(&rt, 1, b"--profile") => run(&rt, Rule::Profile),
        _ => usage(&rt),
    }
}

// By a rule.
fn run(rt: &HostRuntime, rule: Rule) {
    let mut room = command_io::input_room();
    let mut input = rt.stdin();
    match command_io::read_input(&mut input, &mut room) {
        Ok(v) => {
            command_list::print_listing(rt, v, rule, b"list: standard output");
        }
        Err(unread) => command_io::fail_system(rt, b"list: standard input", unread.error),
    }
}

// The help, if it is what the first argument asks for; any other argument is wrong.
fn usage(rt: &HostRuntime) {
    command_io::usage(
        rt,
        b"usage: list [--profile] < VOLUME\n\
        Prints a line for each record of the volume: name, day, mark, mean, spread, then chance:limit for each chance.\n\
        The last line is the end state: whole or torn with records and committed bytes,\n\
        or, alone, damaged with the fault's number and place.\n\
        With --profile a record that breaks the profile for safety controllers is a fault too, number 19.\n",
        b"list: it takes no argument but --profile or --help, and a volume on standard input\n",
        b"list: standard output",
    );
}
