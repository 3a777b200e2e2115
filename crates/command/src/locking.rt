// Which argument is locked and how, which arguments are files, and what a lock comes to in words.
use crate::asked::{Asked, seconds};
use command_io::{Command, Status, behind, fail_of, write_error, write_shown};

// How a command locks: by FILE.lock and then FILE itself; FILE itself alone; by OUT.lock alone.
#[derive(Clone, Copy, Debug, PartialEq, Eq)]
pub enum Lock {
    Both,
    Volume,
    Name,
}

// The place of the argument that is locked, and how.
#[derive(Clone, Copy, Debug, PartialEq, Eq)]
pub struct Guard {
    pub at: usize,
    pub lock: Lock,
}

// What is told of a lock: it is waited for, or it cannot be had.
#[derive(Clone, Copy, Debug, PartialEq, Eq)]
pub enum Told {
    Waiting,
    NoFolder,
    NotPlain,
    NotMade,
    NotLocked,
    Waited,
    NoName,
    Hidden,
}

// The argument to lock.
pub(crate) fn locked(a: Asked) -> Option<Guard> {
    let first = a.options.first;
    match a.command? {
        Command::Append => Some(Guard {
            at: first,
            lock: Lock::Both,
        }),
        Command::Merge => Some(Guard {
            at: behind(first, 2),
            lock: Lock::Name,
        }),
        Command::Index if a.options.make => Some(Guard {
            at: first,
            lock: Lock::Volume,
        }),
        _ => None,
    }
}

// How long it is waited for.
pub(crate) fn patience(rt: &HostRuntime, a: Asked) -> Option<u64> {
    let at = a.options.wait?;
    Some(seconds(rt, at).unwrap_or(0))
}

// Whether an argument is a file's name: one of the first words behind the options, or INDEX.
pub(crate) fn is_file(a: Asked, i: usize) -> bool {
    a.options.index == Some(i)
        || i.checked_sub(a.options.first)
            .is_some_and(|word| word < files(a.command))
}

// How many of the words behind the options are files' names.
fn files(command: Option<Command>) -> usize {
    match command {
        Some(Command::Append | Command::List | Command::Survey) => 1,
        Some(Command::Slots | Command::Record) => 1,
        Some(Command::Merge) => 3,
        Some(Command::Index | Command::Trial) => 2,
        _ => 0,
    }
}

// What a lock comes to, with the path of what is locked.
pub(crate) fn tell(rt: &HostRuntime, told: Told, path: &[u8]) -> Status {
    let what: &[u8] = match told {
        Told::Waiting => return waiting(rt, path),
        Told::NoFolder => b"its folder is missing",
        Told::NotPlain => b"not a regular file",
        Told::NotMade => b"it cannot be made, and an append locks it",
        Told::NotLocked => b"it cannot be locked",
        Told::Waited => b"another command holds it, and --wait is over",
        Told::NoName => b"a file without a name of its own cannot be locked",
        Told::Hidden => b"an error hides what stands there",
    };
    fail_of(rt, path, what)
}

// That it is waited for.
fn waiting(rt: &HostRuntime, path: &[u8]) -> Status {
    write_error(rt, b"awaqlla: waiting for another append, which holds ");
    write_shown(rt, path);
    write_error(rt, b"\n");
    Status::Failed
}
