// The commands, as the program awaqlla calls them: which argument is locked and which are files, what is read before the lock, and the command.
// The program looks at files and locks; what is asked for, every word and the exit status are decided here.
#![tactic(auto)]

mod asked;
mod locking;
mod running;
mod taking;

use command_io::{Kind, Status};
pub use locking::{Guard, Lock, Told};

// The argument that is locked, and how; none where the command locks nothing.
pub fn locked(rt: &HostRuntime) -> Option<Guard> {
    locking::locked(asked::arguments(rt))
}

// How many seconds a lock is waited for; none where it is waited for as long as it takes.
pub fn patience(rt: &HostRuntime) -> Option<u64> {
    locking::patience(rt, asked::arguments(rt))
}

// Whether an argument is a file's name.
pub fn is_file(rt: &HostRuntime, i: usize) -> bool {
    locking::is_file(asked::arguments(rt), i)
}

// Says what a lock comes to; the status of a command that cannot have its lock.
pub fn tell(rt: &HostRuntime, told: Told, path: &[u8]) -> Status {
    locking::tell(rt, told, path)
}

// What is read before the lock is taken: how many ticks; or the status where the command is over.
pub fn take(rt: &HostRuntime, kinds: &[Kind], ticks: &mut [u32]) -> Result<usize, Status> {
    taking::take(rt, asked::arguments(rt), kinds, ticks)
}

// The command; its status.
pub fn run(rt: &HostRuntime, kinds: &[Kind], ticks: &[u32]) -> Status {
    running::run(rt, asked::arguments(rt), kinds, ticks)
}
