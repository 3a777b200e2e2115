// What awaqlla says on standard error: a line that begins with its name. An argument in it is shown with escapes for what is not printable.
// A function that ends a command answers its status, which is then failed.
ghost use Rattle.std.specs.Prelude.{◌≡◌, ◌≤◌, length};

use crate::ending::Status;
use crate::shown::put_shown;
use crate::system::{fail_system, write_error};
use std::env::{Env, FillError};
use std::io::{Error, IsTerminal};

// Says a line.
pub fn say(rt: &HostRuntime, what: &[u8]) {
    write_error(rt, b"awaqlla: ");
    write_error(rt, what);
    write_error(rt, b"\n");
}

// Says a line, and fails.
pub fn fail(rt: &HostRuntime, what: &[u8]) -> Status {
    say(rt, what);
    Status::Failed
}

// Says what is wrong with a text that was handed in, and fails.
pub fn fail_of(rt: &HostRuntime, text: &[u8], what: &[u8]) -> Status {
    write_error(rt, b"awaqlla: ");
    write_shown(rt, text);
    write_error(rt, b": ");
    write_error(rt, what);
    write_error(rt, b"\n");
    Status::Failed
}

// The same with a second text that was handed in, between two parts of what is wrong.
pub fn fail_between(
    rt: &HostRuntime,
    text: &[u8],
    what: &[u8],
    word: &[u8],
    more: &[u8],
) -> Status {
    write_error(rt, b"awaqlla: ");
    write_shown(rt, text);
    write_error(rt, b": ");
    write_error(rt, what);
    write_shown(rt, word);
    write_error(rt, more);
    write_error(rt, b"\n");
    Status::Failed
}

// Says what is wrong with the argument at a place, and fails.
pub fn fail_argument(rt: &HostRuntime, at: usize, what: &[u8]) -> Status {
    let mut room = io::buffer();
    fail_of(rt, argument(rt, at, &mut room), what)
}

// Says what an error says of a file, and fails.
pub fn fail_file_of(rt: &HostRuntime, path: &[u8], error: Error) -> Status {
    let mut line = shown_room();
    let size = put_shown(&mut line, 0, path);
    write_error(rt, b"awaqlla: ");
    fail_system(rt, &line[..size], error);
    Status::Failed
}

// Writes a text to standard error as it is shown.
pub fn write_shown(rt: &HostRuntime, text: &[u8]) {
    let mut line = shown_room();
    let size = put_shown(&mut line, 0, text);
    write_error(rt, &line[..size]);
}

// Room for the longest path as it is shown, four bytes for one (`shown-longest`).
fn shown_room() -> [u8; 16_384]
    ensures { 16_384 ≡ length result }
{
    [0; 16_384]
}

// The argument at a place, or as much of it as there is room for, put into the buffer; empty where there is none.
pub fn argument<'a>(rt: &HostRuntime, at: usize, out: &'a mut [u8]) -> &'a [u8]
    ensures { length result.now ≤ length out.old }
{
    match rt.arg(at, out) {
        Ok(size) => &out[..size],
        Err(FillError::TooLong) => out,
        Err(FillError::NotPresent) => &[],
    }
}

// At a terminal, says what is read from it.
pub fn await_input(rt: &HostRuntime, what: &[u8]) {
    if rt.stdin().is_terminal() {
        say(rt, what);
    }
}

// Writes a text to standard output, and answers whether all of it is written; if not, that is said.
pub fn write_output(rt: &HostRuntime, text: &[u8]) -> bool {
    crate::output::print(rt, text, b"awaqlla: standard output: it cannot be written")
}

// The same of a verdict, a line whose end is its last byte: it is then said too.
pub fn print_verdict(rt: &HostRuntime, line: &[u8]) -> bool {
    if write_output(rt, line) {
        return true;
    }
    say_last(rt, line);
    false
}

// Says which line would have been the last; its end is its last byte.
pub fn say_last(rt: &HostRuntime, line: &[u8]) {
    write_error(
        rt,
        b"awaqlla: standard output: it cannot be written; the last line was: ",
    );
    write_error(rt, line);
}
