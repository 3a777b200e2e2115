// What follows a verdict on standard error: the refusal in words, and where it was found.
// Each answers the exit status of a refusal.
use crate::refusal::{ALL, words_of};
use command_io::{Status, write_error, write_error_decimal};
use refusals::Refusal;
use text_digits::{put, put_decimal};

// The number, and what it means; the line goes on.
fn write_row(rt: &HostRuntime, refusal: Refusal) {
    write_error(rt, b"awaqlla: ");
    write_error_decimal(rt, refusal.number() as u64);
    write_error(rt, b": ");
    write_error(rt, words_of(refusal));
}

// A place, behind what stands before it.
fn write_place(rt: &HostRuntime, before: &[u8], place: usize) {
    write_error(rt, before);
    write_error_decimal(rt, place as u64);
}

// What was declined or refused.
pub fn refused(rt: &HostRuntime, refusal: Refusal) -> Status {
    write_row(rt, refusal);
    write_error(rt, b"\n");
    Status::Refused
}

// A line of the log.
pub fn refused_log(rt: &HostRuntime, refusal: Refusal, place: usize) -> Status {
    write_row(rt, refusal);
    write_place(
        rt,
        b"; not so in the line of the log that starts at byte ",
        place,
    );
    write_error(rt, b"\n");
    Status::Refused
}

// A fault of a volume.
pub fn damaged(rt: &HostRuntime, refusal: Refusal, place: usize) -> Status {
    write_row(rt, refusal);
    write_place(rt, b"; not so at byte ", place);
    write_error(rt, b"\n");
    say_before(rt, place);
    Status::Refused
}

// A fault of the first or the second volume of a merge.
pub fn damaged_of(rt: &HostRuntime, refusal: Refusal, place: usize, second: bool) -> Status {
    write_row(rt, refusal);
    write_place(rt, b"; not so at byte ", place);
    if second {
        write_error(rt, b" of the second volume\n");
    } else {
        write_error(rt, b" of the first volume\n");
    }
    say_before(rt, place);
    Status::Refused
}

// How the records before a fault are shown.
fn say_before(rt: &HostRuntime, place: usize) {
    if place > 0 {
        write_place(rt, b"awaqlla: head -c ", place);
        write_error(rt, b" FILE | awaqlla list shows the records before it\n");
    }
}

// A merge that would set form 1 behind form 2.
pub fn refused_merge(rt: &HostRuntime, refusal: Refusal, place: usize) -> Status {
    write_row(rt, refusal);
    write_place(rt, b"; not so at byte ", place);
    write_error(rt, b" of the merged volume\n");
    Status::Refused
}

// A merge of a volume that ends torn.
pub fn refused_torn(rt: &HostRuntime, second: bool) -> Status {
    write_row(rt, Refusal::Torn);
    if second {
        write_error(rt, b"; not so in the second volume\n");
    } else {
        write_error(rt, b"; not so in the first volume\n");
    }
    Status::Refused
}

// A merge that has no room.
pub fn full_merge(rt: &HostRuntime) -> Status {
    write_error(
        rt,
        b"awaqlla: 9: a volume has at most 65,536 bytes, and these two together have more: keep them apart\n",
    );
    Status::Refused
}

// A volume that ends torn.
pub fn torn(rt: &HostRuntime, place: usize) -> Status {
    write_place(rt, b"awaqlla: from byte ", place);
    write_error(
        rt,
        b" on stands a part of a record, which the next append writes over\n",
    );
    Status::Refused
}

// The command refusal: the words of a refusal on standard output; whether they were written.
pub fn print_refusal(rt: &HostRuntime, refusal: Refusal) -> bool {
    let mut line = [0u8; 256];
    let at = put(&mut line, 0, words_of(refusal));
    print_line(rt, &mut line, at)
}

// Whether a refusal is one of the papers'.
pub fn is_refusal(refusal: Refusal) -> bool {
    !matches!(refusal, Refusal::Other(_))
}

// All of them, a line each, with their numbers in two places.
pub fn print_refusals(rt: &HostRuntime) -> bool {
    ALL.iter().all(|refusal| print_row(rt, *refusal))
}

// One of them.
fn print_row(rt: &HostRuntime, refusal: Refusal) -> bool {
    let mut line = [0u8; 280];
    let first = put_number(&mut line, refusal.number() as u64);
    let at = put(&mut line, first, b": ");
    let end = put(&mut line, at, words_of(refusal));
    print_line(rt, &mut line, end)
}

// The line in a buffer up to a place, with its end; whether it was written.
fn print_line(rt: &HostRuntime, line: &mut [u8], at: usize) -> bool {
    let end = put(line, at, b"\n");
    command_io::flush(
        rt,
        line,
        end,
        b"awaqlla: standard output: it cannot be written",
    )
}

// A number in two places.
fn put_number(line: &mut [u8], number: u64) -> usize {
    let place = if number < 10 { put(line, 0, b" ") } else { 0 };
    put_decimal(line, place, number)
}
