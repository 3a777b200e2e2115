// What is judged and read before a lock is taken: the options, and for an append the ticks or the log.
// The answer is the number of ticks, or the status of a command that is over.
use crate::asked::{Asked, Trouble};
use command_io::{Command, Kind, Options, Status, argument, fail, fail_between};
use command_words::print_help;

// What the arguments ask for, before the lock.
pub(crate) fn take(
    rt: &HostRuntime,
    a: Asked,
    kinds: &[Kind],
    ticks: &mut [u32],
) -> Result<usize, Status> {
    match (a.command, a.trouble) {
        (None, _) => Err(fail(
            rt,
            b"it takes append, list, survey, slots, record, plot, page, merge, index, trial, band, day, date, refusal, selftest or demo; awaqlla --help says more",
        )),
        (Some(Command::Help), _) => Err(print_help(rt)),
        (Some(_), Some(trouble)) => Err(explain(rt, trouble)),
        (Some(command), None) => take_command(rt, command, a.options, kinds, ticks),
    }
}

// What is wrong with the options, or the help.
fn explain(rt: &HostRuntime, trouble: Trouble) -> Status {
    match trouble {
        Trouble::Help => print_help(rt),
        Trouble::Twice(at) => twice(rt, at),
        Trouble::Unknown(at) => unknown(rt, at),
        Trouble::Nameless => fail(
            rt,
            b"append: --index takes a file's name, and one that starts with a dash is written ./-",
        ),
        Trouble::Timeless => fail(rt, b"--wait takes a number of seconds, 0 to 1000000"),
    }
}

// An option that stands twice.
fn twice(rt: &HostRuntime, at: usize) -> Status {
    let mut command = [0u8; 16];
    let mut word = [0u8; 16];
    fail_between(
        rt,
        argument(rt, 1, &mut command),
        b"one option too many: ",
        argument(rt, at, &mut word),
        b"",
    )
}

// A word that starts with a dash and is no option here.
fn unknown(rt: &HostRuntime, at: usize) -> Status {
    let mut command = [0u8; 16];
    let mut word = io::buffer();
    fail_between(
        rt,
        argument(rt, 1, &mut command),
        b"no option ",
        argument(rt, at, &mut word),
        b" here; awaqlla --help says more. A FILE that starts with a dash stands behind --",
    )
}

// The same of a command whose options are good.
fn take_command(
    rt: &HostRuntime,
    command: Command,
    o: Options,
    kinds: &[Kind],
    ticks: &mut [u32],
) -> Result<usize, Status> {
    match command {
        Command::Append => return command_append::take(rt, o, kinds, ticks),
        Command::Merge => command_merge::judge(rt, o, kinds)?,
        Command::Index => command_index::judge(rt, o, kinds)?,
        _ => {}
    }
    Ok(0)
}
