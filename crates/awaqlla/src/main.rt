// The program awaqlla: closed standard streams, what stands at a file's name, the locks, and the exit status. Everything else is crate command's:
// the program asks it which argument is locked, and it says every word.
#![tactic(auto)]

mod kinds;
mod locks;
mod names;
mod version;

use crate::kinds::{kind_of, kind_of_input};
use crate::locks::{Held, let_go, lock};
use crate::names::is_name;
use command::{Guard, Lock, Told};
use command_io::{Kind, Status, arg_count, argument, fail_of};
use std::process::ExitCode;

// So many arguments are looked at.
const ARGUMENTS: usize = 64;

// Room for so many ticks. They stay in an array on the stack: the project promises fixed memory and no heap.
const TICKS: usize = 32_768;

// The argument to lock, and its name.
#[derive(Clone, Copy)]
struct Guarded<'a> {
    guard: Guard,
    name: &'a [u8],
}

fn main(rt: HostRuntime) -> ExitCode {
    ExitCode::from(run(&rt).number() as u8)
}

// The status.
fn run(rt: &HostRuntime) -> Status {
    if !command_io::streams_are_open(rt, b"awaqlla: ") {
        return Status::Failed;
    }
    if command_io::is_argument(rt, 1, b"--version") {
        return version::say_version(rt);
    }
    let guard = command::locked(rt).filter(|guard| guard.at < arg_count(rt));
    let mut room = io::buffer();
    let name = name_of(rt, guard, &mut room);
    ask(rt, guard.map(|guard| Guarded { guard, name })).unwrap_or_else(|failed| failed)
}

// The name of what is locked; none where nothing is.
fn name_of<'a>(rt: &HostRuntime, guard: Option<Guard>, out: &'a mut [u8]) -> &'a [u8] {
    match guard {
        Some(guard) => argument(rt, guard.at, out),
        None => &[],
    }
}

// What is asked for: every file is looked at, then what stands before the lock is read.
fn ask(rt: &HostRuntime, guarded: Option<Guarded>) -> Result<Status, Status> {
    let mut room = [Kind::NOTHING; ARGUMENTS];
    let count = arg_count(rt).min(ARGUMENTS);
    let kinds = &mut room[..count];
    look_at_all(rt, guarded, kinds)?;
    let mut ticks = [0u32; TICKS];
    let count = command::take(rt, kinds, &mut ticks)?.min(TICKS);
    with_lock(rt, guarded, kinds, &ticks[..count])
}

// Puts the kind of standard input, and what stands at the name of each argument that is a file's; fails where an error hides one.
fn look_at_all(
    rt: &HostRuntime,
    guarded: Option<Guarded>,
    kinds: &mut [Kind],
) -> Result<(), Status> {
    for i in 0..kinds.len() {
        if i == 0 {
            kinds[i] = kind_of_input(rt);
        } else if command::is_file(rt, i) {
            kinds[i] = match guarded {
                Some(other) if other.guard.at != i => look(rt, i, Some(other.name))?,
                _ => look(rt, i, None)?,
            };
        }
    }
    Ok(())
}

// What stands at an argument's name; where an error hides it, that is said. `guarded` is the name of what is locked, where that is another argument.
fn look(rt: &HostRuntime, at: usize, guarded: Option<&[u8]>) -> Result<Kind, Status> {
    let mut room = io::buffer();
    let path = argument(rt, at, &mut room);
    if !is_name(path) {
        return Err(fail_of(rt, path, b"a name that is not UTF-8 cannot be opened"));
    }
    match kind_of(rt, path, guarded) {
        Some(kind) => Ok(kind),
        None => Err(command::tell(rt, Told::Hidden, path)),
    }
}

// The command, with its lock.
fn with_lock(
    rt: &HostRuntime,
    guarded: Option<Guarded>,
    kinds: &mut [Kind],
    ticks: &[u32],
) -> Result<Status, Status> {
    let Some(Guarded { guard, name }) = guarded else {
        return Ok(command::run(rt, kinds, ticks));
    };
    let held = lock(rt, guard.lock, name);
    let status = run_held(rt, &held, guard, kinds, ticks);
    let_go(rt, held, guard.lock, name);
    status
}

// The command, where its lock is held. What is locked by OUT.lock alone is looked at again.
fn run_held(
    rt: &HostRuntime,
    held: &Held,
    guard: Guard,
    kinds: &mut [Kind],
    ticks: &[u32],
) -> Result<Status, Status> {
    held.status?;
    if guard.lock == Lock::Name && guard.at < kinds.len() {
        kinds[guard.at] = look(rt, guard.at, None)?;
    }
    Ok(command::run(rt, kinds, ticks))
}
