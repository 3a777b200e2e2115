// The record's lines, each made in a buffer of its own and printed: every field in words, or the times alone.
// The texts of dates, ticks and numbers are those of crates text_dates, text_ticks and text_digits. No line is longer than a limit's may be.
use crate::find::Place;
use command_io::{inside, write_output};
use journal::marks::{Mark, mark_of};
use journal_listing::moments::{mean_bits, moments_in, spread_bits};
use journal_parts::{number_in, part_of, spans_at};
use journal_report::{MAX_FIGURE, limit_line, moment_line};
use text_dates::put_date;
use text_digits::{put, put_decimal};
use text_ticks::{Count, put_milliseconds};

// Every field of the record at a place; whether no write failed.
pub(crate) fn print_fields(rt: &HostRuntime, v: &[u8], records: usize, place: Place) -> bool {
    let Place { at, i } = place;
    let spans = spans_at(v, at);
    let times = part_of(v, spans.times);
    print_position(rt, i, records)
        && print_name(rt, part_of(v, spans.name))
        && print_form(rt, number_in(v, at, 2))
        && print_day(rt, (number_in(v, at.wrapping_add(2), 2) % 65_536) as u16)
        && print_mark(rt, mark_of(times))
        && print_ticks(rt, times)
        && print_moments(rt, v, at)
        && print_limits(rt, part_of(v, spans.chances), part_of(v, spans.limits))
}

// Mean and spread.
fn print_moments(rt: &HostRuntime, v: &[u8], at: usize) -> bool {
    let worked = moments_in(v, at);
    print_moment(rt, b"mean bits ", mean_bits(worked))
        && print_moment(rt, b"spread bits ", spread_bits(worked))
}

// The times alone, one a line; whether no write failed.
pub(crate) fn print_times(rt: &HostRuntime, v: &[u8], at: usize) -> bool {
    let times = part_of(v, spans_at(v, at).times);
    let mut all = times.chunks_exact(4);
    all.all(|time| print_count(rt, b"", number_in(time, 0, 4)))
}

// `record 2 of 5`: the position, counted from 0, and how many records stand.
fn print_position(rt: &HostRuntime, i: usize, records: usize) -> bool {
    let mut out = [0u8; MAX_FIGURE];
    let p = put_number(&mut out, 0, b"record ", i as u64);
    let q = put_number(&mut out, p, b" of ", records as u64);
    print_line(rt, &mut out, q, b"\n")
}

// The name.
fn print_name(rt: &HostRuntime, name: &[u8]) -> bool {
    let mut out = [0u8; MAX_FIGURE];
    let p = put(&mut out, 0, b"name ");
    let end = put(&mut out, p, name);
    print_line(rt, &mut out, end, b"\n")
}

// The form, and what D is divided by.
fn print_form(rt: &HostRuntime, form: u64) -> bool {
    let mut out = [0u8; MAX_FIGURE];
    let p = put_number(&mut out, 0, b"form ", form);
    if form == 1 {
        print_line(rt, &mut out, p, b": the spread divides D by n * n\n")
    } else {
        print_line(rt, &mut out, p, b": the spread divides D by n * (n - 1)\n")
    }
}

// The date and the day.
fn print_day(rt: &HostRuntime, day: u16) -> bool {
    let mut out = [0u8; MAX_FIGURE];
    let p = put(&mut out, 0, b"date ");
    let q = put_date(&mut out, p, day);
    let end = put_number(&mut out, q, b", day ", day as u64);
    print_line(rt, &mut out, end, b"\n")
}

// The mark.
fn print_mark(rt: &HostRuntime, mark: Mark) -> bool {
    match mark {
        Mark::Few => write_output(rt, b"mark S: fewer than 8 times\n"),
        Mark::Flat => write_output(rt, b"mark F: 8 times or more, all equal\n"),
        Mark::Normal => write_output(rt, b"mark N: 8 times or more, not all equal\n"),
    }
}

// How many times there are, and each in ticks and milliseconds.
fn print_ticks(rt: &HostRuntime, times: &[u8]) -> bool {
    if !print_count(rt, b"times ", times.len() as u64 / 4) {
        return false;
    }
    let mut all = times.chunks_exact(4);
    all.all(|time| print_tick(rt, number_in(time, 0, 4)))
}

// A number behind a text.
fn print_count(rt: &HostRuntime, what: &[u8], count: u64) -> bool {
    let mut out = [0u8; MAX_FIGURE];
    let end = put_number(&mut out, 0, what, count);
    print_line(rt, &mut out, end, b"\n")
}

// A text and a number.
fn put_number(out: &mut [u8], place: usize, what: &[u8], n: u64) -> usize {
    let p = put(out, place, what);
    put_decimal(out, p, n)
}

fn print_tick(rt: &HostRuntime, t: u64) -> bool {
    let mut out = [0u8; MAX_FIGURE];
    let p = put_number(&mut out, 0, b"time ", t);
    let q = put(&mut out, p, b" ticks, ");
    let count = Count {
        below: false,
        size: t,
    };
    let end = put_milliseconds(&mut out, q, count);
    print_line(rt, &mut out, end, b" ms\n")
}

// How many chances there are, and each limit with its chance.
fn print_limits(rt: &HostRuntime, chances: &[u8], limits: &[u8]) -> bool {
    if !print_count(rt, b"chances ", limits.len() as u64 / 8) {
        return false;
    }
    let mut all = chances.chunks_exact(4).zip(limits.chunks_exact(8));
    all.all(|(chance, limit)| print_limit(rt, number_in(chance, 0, 4), number_in(limit, 0, 8)))
}

// Its bits, its exact decimal, and what it is rounded up to.
fn print_limit(rt: &HostRuntime, chance: u64, limit: u64) -> bool {
    let mut out = [0u8; MAX_FIGURE];
    let size = limit_line(&mut out, chance, limit);
    write_output(rt, inside(size, &out))
}

// The mean or the spread: its bits, its exact decimal, and the nearest tick.
fn print_moment(rt: &HostRuntime, what: &[u8], bits: u64) -> bool {
    let mut out = [0u8; MAX_FIGURE];
    let size = moment_line(&mut out, what, bits);
    write_output(rt, inside(size, &out))
}

// The line in a buffer up to a place, with its last word, and whether it was written.
fn print_line(rt: &HostRuntime, out: &mut [u8], place: usize, last: &[u8]) -> bool {
    let end = put(out, place, last);
    write_output(rt, inside(end, out))
}
