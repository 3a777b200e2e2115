// `awaqlla trial FILE [LOG]` (request 2026-12): tries the limits of a journal, document 01's volume, on a recorded log, which is standard input where
// no file is named. What is wrong with the words or a file is said on standard error.
#![tactic(auto)]

mod files;
mod output;
mod passes;
mod report;
mod table;
mod text;

use command_io::{
    Kind, Options, Status, await_input, behind, fail, input_apart, input_room, read_named,
    readable, words_from,
};
use std::io::Read;
pub use text::{put_chance, put_head, put_unknown};

// Judges the words, reads the volume and tries it on the log; the status.
pub fn trial(rt: &HostRuntime, o: Options, kinds: &[Kind]) -> Status {
    try_words(rt, o, kinds).unwrap_or_else(|failed| failed)
}

// The same; failed where it is over before.
fn try_words(rt: &HostRuntime, o: Options, kinds: &[Kind]) -> Result<Status, Status> {
    let count = words_from(rt, o.first);
    if count < 1 || 2 < count {
        return Err(fail(
            rt,
            b"trial takes FILE, and LOG or a log on standard input; awaqlla --help says more",
        ));
    }
    if !readable(rt, kinds, o.first) {
        return Err(Status::Failed);
    }
    if count == 2 {
        return try_file(rt, o.first, kinds);
    }
    if !input_apart(rt, kinds) {
        return Err(Status::Failed);
    }
    await_input(
        rt,
        b"a log, lines of a name, one space and ticks; Ctrl-D behind a line end ends it",
    );
    let mut input = rt.stdin();
    try_on(rt, o.first, &mut input)
}

// The log is a file, which is not copied.
fn try_file(rt: &HostRuntime, at: usize, kinds: &[Kind]) -> Result<Status, Status> {
    let log = behind(at, 1);
    if !readable(rt, kinds, log) {
        return Err(Status::Failed);
    }
    let mut file = files::open_log(rt, log)?;
    try_on(rt, at, &mut file)
}

// The volume, on an open log.
fn try_on<R: Read>(rt: &HostRuntime, at: usize, log: &mut R) -> Result<Status, Status> {
    let mut room = input_room();
    let v = read_named(rt, at, &mut room)?;
    Ok(report::try_log(rt, log, v))
}
