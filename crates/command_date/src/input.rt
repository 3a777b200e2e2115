// The arguments: decimal numbers of days, and a date or a day.
// A word that is no day is none.
ghost use Rattle.std.specs.Prelude.{◌^◌, ◌<◌, IfSome};

use crate::day::{day_of, fail_date};
use command_io::{Status, argument, fail, fail_argument, read_number};

// The largest day.
const MAX_DAY: u32 = 65_535;

// The day that an argument names.
pub(crate) fn day_at(rt: &HostRuntime, i: usize) -> Option<u32>
    ensures { IfSome result (λ n. n < 2 ^ 16) }
{
    let mut room = [0u8; 32];
    read_number(argument(rt, i, &mut room), MAX_DAY)
}

// The day of an argument that is a date, which has a dash, or a day. Where it is none, the command is over: what is wrong is said.
pub fn day_or_date(rt: &HostRuntime, at: usize) -> Result<u16, Status> {
    let mut room = [0u8; 32];
    let word = argument(rt, at, &mut room);
    if word.contains(&b'-') {
        return day_of(word).map_err(|e| fail_date(rt, at, e));
    }
    if word.is_empty() || !word.iter().all(|c| c.is_ascii_digit()) {
        return Err(fail_argument(
            rt,
            at,
            b"a date is YYYY-MM-DD, and a day a number from 0 to 65535",
        ));
    }
    match day_at(rt, at) {
        Some(n) => Ok(n as u16),
        None => Err(fail(
            rt,
            b"DAY: not a decimal number from 0 to 65535 without leading zeros",
        )),
    }
}
