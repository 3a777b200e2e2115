// The command date: the date of each day from DAY to LAST, or of DAY alone, a line each.
// Nothing but dates goes to standard output; what fails is said on standard error.
ghost use Rattle.std.specs.Prelude.{◌^◌, ◌<◌};

use crate::input::day_at;
use command_io::{Options, Status, fail, words_from, write_output};
use text_dates::put_date;

// The command.
pub fn date(rt: &HostRuntime, o: Options) -> Status {
    let words = words_from(rt, o.first);
    if words == 0 || 2 < words {
        return usage(rt);
    }
    let Some(first) = day_at(rt, o.first) else {
        return usage(rt);
    };
    if words == 1 {
        return print_days(rt, first, first);
    }
    let Some(last) = day_at(rt, o.first.wrapping_add(1)) else {
        return usage(rt);
    };
    if last < first {
        return fail(rt, b"LAST: a day before DAY");
    }
    print_days(rt, first, last)
}

// The dates from a day to a last one, none where that is before it.
fn print_days(rt: &HostRuntime, first: u32, last: u32) -> Status
    requires { last < 2 ^ 16 }
{
    for day in first..=last {
        if !print_day(rt, day as u16) {
            return Status::Failed;
        }
    }
    Status::Done
}

// One date, and whether it was written.
fn print_day(rt: &HostRuntime, day: u16) -> bool {
    let mut out = [b'\n'; 11];
    put_date(&mut out, 0, day);
    write_output(rt, &out)
}

// What the command takes.
fn usage(rt: &HostRuntime) -> Status {
    fail(
        rt,
        b"date: it takes DAY [LAST], each a decimal number from 0 to 65535 without leading zeros",
    )
}
