// The day of a date YYYY-MM-DD: worked out, and answered only where the date of that day is the text.
// Day 0 is 1 January 2000.
ghost use Rattle.std.specs.Prelude.{◌≡◌, ◌≤◌, true, IfOk, IfSome};
ghost use Rattle.text_digits.specs.Same.{same_bytes};
ghost use Rattle.text_dates.specs.Iso.{iso_of};

use command_io::{Options, Status, arg_count, argument, fail, fail_argument};
use text_dates::iso_of;
use text_digits::{put, put_decimal, same};

// Why a word is no day: it is not YYYY-MM-DD, there is no such date, or it is out of range.
#[derive(Clone, Copy, Debug, PartialEq, Eq)]
pub enum DayError {
    Form,
    NoDate,
    Range,
}

// The day of a date. Where it answers one, the text is that day's date.
pub fn day_of(word: &[u8]) -> Result<u16, DayError>
    ensures { IfOk result (λ n. same_bytes (iso_of n) word.now ≡ true) }
{
    let (year, month, date) = parts(word).ok_or(DayError::Form)?;
    if !(1..=longest(year, month)).contains(&date) {
        return Err(DayError::NoDate);
    }
    let day = days(year, month, date).ok_or(DayError::Range)?;
    checked(word, day)
}

// A day, where its date is the text.
fn checked(word: &[u8], day: u16) -> Result<u16, DayError>
    ensures { IfOk result (λ n. same_bytes (iso_of n) word.now ≡ true) }
{
    let text = iso_of(day);
    if same(&text, word) {
        Ok(day)
    } else {
        Err(DayError::NoDate)
    }
}

// The year, the month and the date of a text that has four digits, a dash, two, a dash and two.
fn parts(word: &[u8]) -> Option<(u64, u64, u64)> {
    let [y1, y2, y3, y4, b'-', m1, m2, b'-', d1, d2] = word else {
        return None;
    };
    let year = two(*y1, *y2)? * 100 + two(*y3, *y4)?;
    Some((year, two(*m1, *m2)?, two(*d1, *d2)?))
}

// The number of two digits.
fn two(tens: u8, ones: u8) -> Option<u64>
    ensures { IfSome result (λ n. n ≤ 99) }
{
    if tens.is_ascii_digit() && ones.is_ascii_digit() {
        Some((tens - b'0') as u64 * 10 + (ones - b'0') as u64)
    } else {
        None
    }
}

// How many days a month has; none where there is no such month.
fn longest(year: u64, month: u64) -> u64 {
    match month {
        1 | 3 | 5 | 7 | 8 | 10 | 12 => 31,
        4 | 6 | 9 | 11 => 30,
        2 if is_leap(year) => 29,
        2 => 28,
        _ => 0,
    }
}

fn is_leap(year: u64) -> bool {
    year % 4 == 0 && (year % 100 != 0 || year % 400 == 0)
}

// The day of a date from 1 January 2000 to the last that a day has: the days of the years before, of the months before as if each February had 30
// days, less what it has not, and of the month.
fn days(year: u64, month: u64, date: u64) -> Option<u16> {
    let since = year.checked_sub(2000)? % 10_000;
    let years = 365 * since + (since + 3) / 4 + (since + 399) / 400;
    let months = 275 * (month % 100) / 9 + date % 100;
    let less = (since + 99) / 100 + 31 + short(year, month);
    u16::try_from((years + months).checked_sub(less)?).ok()
}

// How many days February has less than 30, behind it.
fn short(year: u64, month: u64) -> u64
    ensures { result ≤ 2 }
{
    if month <= 2 {
        0
    } else if is_leap(year) {
        1
    } else {
        2
    }
}

// The command day.
pub fn tell_day(rt: &HostRuntime, o: Options) -> Status {
    if arg_count(rt) != o.first.wrapping_add(1) {
        return fail(rt, b"day takes one DATE");
    }
    let mut room = [0u8; 16];
    match day_of(argument(rt, o.first, &mut room)) {
        Ok(day) => print_day(rt, day),
        Err(e) => fail_date(rt, o.first, e),
    }
}

// Why the argument at a place is no date.
pub(crate) fn fail_date(rt: &HostRuntime, at: usize, error: DayError) -> Status {
    let what: &[u8] = match error {
        DayError::Form => b"a date is YYYY-MM-DD",
        DayError::NoDate => b"there is no such date",
        DayError::Range => b"a date is 2000-01-01 to 2179-06-06",
    };
    fail_argument(rt, at, what)
}

// A day and a line end.
fn print_day(rt: &HostRuntime, day: u16) -> Status {
    let mut line = [0u8; 16];
    let at = put_decimal(&mut line, 0, day as u64);
    let size = put(&mut line, at, b"\n");
    let written = command_io::flush(
        rt,
        &line,
        size,
        b"awaqlla: standard output: it cannot be written",
    );
    Status::Done.if_written(written)
}
