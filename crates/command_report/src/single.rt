// The command record: one record of a journal, every field in words, or its times alone; `refused 10` where there is no such record.
// What fails is said on standard error.
use crate::find::{Place, at_position, last_named};
use crate::input::{Asked, question};
use crate::lines::{print_fields, print_times};
use command_io::{Kind, Options, argument, input_room};
use command_list::{close_with, read_volume};
use journal::Status;
use journal_index::index_room;
use journal_report::begin;
use refusals::Refusal;

// The command.
pub fn record(rt: &HostRuntime, o: Options, kinds: &[Kind]) -> command_io::Status {
    match question(rt, o.first.wrapping_add(1)) {
        Ok(asked) => read_record(rt, o, kinds, asked),
        Err(status) => status,
    }
}

// The volume's bytes.
fn read_record(rt: &HostRuntime, o: Options, kinds: &[Kind], asked: Asked) -> command_io::Status {
    let mut room = input_room();
    match read_volume(rt, o.first, kinds, &mut room) {
        Ok(v) => print_asked(rt, v, asked, o.ticks),
        Err(unread) => command_io::Status::from(unread),
    }
}

// What is asked for; or the volume's fault, or that there is no such record. The volume is scanned once.
fn print_asked(rt: &HostRuntime, v: &[u8], asked: Asked, ticks: bool) -> command_io::Status {
    let mut index = index_room();
    let status = begin(v, &mut index).status;
    let records = records_of(status);
    let found = match asked {
        Asked::Name(word) => named(rt, v, &index, records, word),
        Asked::At(i) => at_position(v, records, i),
    };
    match (found, status) {
        (Some(place), _) => print_record(rt, v, records, place, ticks),
        (None, Status::Damaged(_)) => close_with(rt, v, status, true),
        (None, _) => print_absent(rt),
    }
}

// How many records stand; none where the volume is damaged.
fn records_of(status: Status) -> usize {
    match status {
        Status::Whole { records, .. } | Status::Torn { records, .. } => records,
        Status::Damaged(_) => 0,
    }
}

// The last record of the name in an argument.
fn named(rt: &HostRuntime, v: &[u8], index: &[u8], records: usize, word: usize) -> Option<Place> {
    let mut room = [0u8; 33];
    last_named(v, index, records, argument(rt, word, &mut room))
}

// The record at a place, every field, or its times alone.
fn print_record(
    rt: &HostRuntime,
    v: &[u8],
    records: usize,
    place: Place,
    ticks: bool,
) -> command_io::Status {
    let written = if ticks {
        print_times(rt, v, place.at)
    } else {
        print_fields(rt, v, records, place)
    };
    command_io::Status::Done.if_written(written)
}

// That there is no such record.
fn print_absent(rt: &HostRuntime) -> command_io::Status {
    if command_io::print_verdict(rt, b"refused 10\n") {
        command_words::refused(rt, Refusal::Absent)
    } else {
        command_io::Status::Failed
    }
}
