// Standard output, and what a program answers to arguments that it does not take: its help, or what is wrong.
// A write to standard output that fails is said on standard error.
use crate::help::is_help;
use crate::system::{arg, fail_system, write_error};

// The help on standard output where the first argument asks for it, else what is wrong on standard error. `output` starts the
// message where the help cannot be written, as in `list: standard output`.
pub fn usage(rt: &HostRuntime, help: &[u8], wrong: &[u8], output: &[u8]) {
    let mut room = [0u8; 6];
    if arg(rt, 1, &mut room).is_some_and(is_help) {
        print(rt, help, output);
    } else {
        write_error(rt, wrong);
    }
}

// Writes a text to standard output, and answers whether all of it is written. If not, a line on standard error says which output failed,
// as in `list: standard output: ..`, and why.
pub fn print(rt: &HostRuntime, text: &[u8], output: &[u8]) -> bool {
    match rt.stdout().write_all(text) {
        Ok(()) => true,
        Err(e) => {
            fail_system(rt, output, e);
            false
        }
    }
}
