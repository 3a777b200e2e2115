// What the arguments ask for: the command, its options, or what is wrong with them.
// Options stand before the other words, in any order, each once.
use command_io::{Command, Flag, Options, argument, behind, command_of, flag_of, read_number};

// Why the options are not taken: the help is asked for instead; an option that stands twice, or none that the command takes, at a place; no name behind
// --index, no number behind --wait.
#[derive(Clone, Copy, Debug, PartialEq, Eq)]
pub(crate) enum Trouble {
    Help,
    Twice(usize),
    Unknown(usize),
    Nameless,
    Timeless,
}

// What is asked for: the command, none where the word is none; its options, as far as they are read; and what is wrong with them.
#[derive(Clone, Copy, Debug, PartialEq, Eq)]
pub(crate) struct Asked {
    pub(crate) command: Option<Command>,
    pub(crate) options: Options,
    pub(crate) trouble: Option<Trouble>,
}

// The most words that options take, with `--`.
const MOST: usize = 16;

// What the arguments ask for.
pub(crate) fn arguments(rt: &HostRuntime) -> Asked {
    let mut room = [0u8; 16];
    let command = command_of(argument(rt, 1, &mut room));
    let mut options = Options {
        first: 2,
        ..Options::default()
    };
    for _ in 0..MOST {
        let flag = flag_at(rt, options.first);
        if !command.is_some_and(|command| command.takes(flag)) {
            return closed(command, options, flag);
        }
        match with_option(rt, options, flag) {
            Ok(more) => options = more,
            Err(trouble) => {
                return Asked {
                    command,
                    options,
                    trouble: Some(trouble),
                };
            }
        }
    }
    Asked {
        command,
        options,
        trouble: None,
    }
}

// The option at a place.
fn flag_at(rt: &HostRuntime, at: usize) -> Flag {
    let mut room = [0u8; 16];
    flag_of(argument(rt, at, &mut room))
}

// The options with one more that the command takes.
fn with_option(rt: &HostRuntime, options: Options, flag: Flag) -> Result<Options, Trouble> {
    let first = options.first;
    if options.has(flag) {
        return Err(Trouble::Twice(first));
    }
    match flag {
        Flag::Index if !is_name(rt, behind(first, 1)) => Err(Trouble::Nameless),
        Flag::Wait if seconds(rt, behind(first, 1)).is_none() => Err(Trouble::Timeless),
        _ => Ok(options.with(flag, first)),
    }
}

// Whether a word is a file's name behind --index: it is not empty, and starts with no dash.
fn is_name(rt: &HostRuntime, at: usize) -> bool {
    let mut room = [0u8; 2];
    flag_at(rt, at) == Flag::Word && !argument(rt, at, &mut room).is_empty()
}

// The seconds behind --wait.
pub(crate) fn seconds(rt: &HostRuntime, at: usize) -> Option<u64> {
    let mut room = [0u8; 16];
    let seconds = read_number(argument(rt, at, &mut room), 1_000_000)?;
    Some(seconds as u64)
}

// A word that is no option of the command: help, the end of the options, or the first of the others.
fn closed(command: Option<Command>, options: Options, flag: Flag) -> Asked {
    let first = options.first;
    let (options, trouble) = match flag {
        Flag::End => (options.with(flag, first), None),
        Flag::Word => (options, None),
        Flag::Help => (options, Some(Trouble::Help)),
        _ => (options, Some(Trouble::Unknown(first))),
    };
    Asked {
        command,
        options,
        trouble,
    }
}
