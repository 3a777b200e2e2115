// The commands, once the options are read and the lock is held.
// Each is a library function that answers its exit status.
use crate::asked::Asked;
use command_io::{
    Command, Kind, Options, Status, argument, fail, fail_argument, read_number, words_from,
};
use command_words::{is_refusal, print_refusal, print_refusals};
use refusals::Refusal;

// The command that is asked for.
pub(crate) fn run(rt: &HostRuntime, a: Asked, kinds: &[Kind], ticks: &[u32]) -> Status {
    let o = a.options;
    match a.command {
        Some(Command::Append) => command_append::append(rt, o, ticks),
        Some(Command::Merge) => command_merge::merge(rt, o, kinds),
        Some(Command::Index) => command_index::index(rt, o),
        Some(Command::Trial) => command_trial::trial(rt, o, kinds),
        Some(Command::List) => list(rt, o, kinds),
        Some(Command::Survey) => survey(rt, o, kinds),
        Some(Command::Slots) => command_report::slots(rt, o, kinds),
        Some(Command::Record) => command_report::record(rt, o, kinds),
        Some(Command::Day) => command_date::tell_day(rt, o),
        Some(Command::Date) => command_date::date(rt, o),
        Some(Command::Refusal) => refusal(rt, o),
        Some(Command::Selftest) => selftest(rt, o),
        Some(Command::Drawn) => fail(
            rt,
            b"plot and page are tools of the clone, in python3: its awaqlla calls them",
        ),
        _ => fail(
            rt,
            b"band and demo are tools of the clone: its awaqlla calls them",
        ),
    }
}

fn list(rt: &HostRuntime, o: Options, kinds: &[Kind]) -> Status {
    if 1 < words_from(rt, o.first) {
        return fail(rt, b"list takes one FILE, or a volume on standard input");
    }
    command_list::list(rt, o, kinds)
}

fn survey(rt: &HostRuntime, o: Options, kinds: &[Kind]) -> Status {
    if 1 < words_from(rt, o.first) {
        return fail(rt, b"survey takes one FILE, or a volume on standard input");
    }
    command_list::survey(rt, o, kinds)
}

fn selftest(rt: &HostRuntime, o: Options) -> Status {
    if 0 < words_from(rt, o.first) {
        return fail(rt, b"selftest takes nothing");
    }
    command_selftest::selftest(rt)
}

// The command refusal: what a number means, or all of them.
fn refusal(rt: &HostRuntime, o: Options) -> Status {
    match words_from(rt, o.first) {
        0 => Status::Done.if_written(print_refusals(rt)),
        1 => refusal_at(rt, o.first),
        _ => fail(rt, b"refusal takes one NUMBER, or none"),
    }
}

// What the number at a place means.
fn refusal_at(rt: &HostRuntime, at: usize) -> Status {
    let mut room = [0u8; 16];
    match read_number(argument(rt, at, &mut room), 65_535) {
        Some(number) if is_refusal(Refusal::from(number)) => {
            Status::Done.if_written(print_refusal(rt, Refusal::from(number)))
        }
        _ => fail_argument(
            rt,
            at,
            b"no refusal has that number; awaqlla refusal has them all",
        ),
    }
}
