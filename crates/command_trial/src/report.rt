// The trial of a log, and what is printed of it: a line for each name in the index's order, then the lines with unknown names; or the refusal.
// The program makes the index itself, so that 14 and 10 are no answers here.
ghost use Rattle.std.specs.Prelude.{◌≡◌, ◌≤◌, length};

use crate::output::{gather_line, print_unknown, refuse};
use crate::passes::try_pieces;
use crate::table::{count_at, table_room};
use crate::text::{put_chance, put_head};
use command_io::{Status, fail_system};
use journal_entries::{entry_at, entry_place};
use journal_parts::{Span, number_in, spans_at};
use std::io::Read;
use text_digits::put;

// A record has no more chances.
const MOST_CHANCES: usize = 8;

// Room for a line.
fn line_room() -> [u8; 1_024]
    ensures { 1_024 ≡ length result }
{
    [0; 1_024]
}

// Tries the log of a reader on the journal that is all of a slice.
pub(crate) fn try_log<R: Read>(rt: &HostRuntime, log: &mut R, v: &[u8]) -> Status {
    let mut index = journal_index::index_room();
    let _ = journal_index::make_index(v, v.len(), &mut index);
    let mut table = table_room();
    match try_pieces(log, v, &index, &mut table) {
        Ok(Ok(lines)) => Status::Done.if_written(print_all(rt, v, &index, &table, lines)),
        Ok(Err(error)) => refuse(rt, error),
        Err(e) => {
            fail_system(rt, b"awaqlla: the log", e);
            Status::Failed
        }
    }
}

// The lines of all names, then the lines with unknown names; whether all are written. They are gathered, so that a write takes many.
fn print_all(rt: &HostRuntime, v: &[u8], index: &[u8], table: &[u64], unknown: u64) -> bool {
    let mut space = io::large_buffer();
    let room: &mut [u8] = &mut space;
    let count = number_in(index, 0, 2) as usize;
    let mut waiting = 0;
    for k in 0..count {
        match print_name(rt, v, index, table, k, room, waiting) {
            Some(more) => waiting = more,
            None => return false,
        }
    }
    print_unknown(rt, room, waiting, unknown)
}

// The line of the name at a position, behind what waits in the room; how many bytes wait then.
fn print_name(
    rt: &HostRuntime,
    v: &[u8],
    index: &[u8],
    table: &[u64],
    k: usize,
    room: &mut [u8],
    waiting: usize,
) -> Option<usize> {
    let mut out = line_room();
    let size = put_name(&mut out, v, index, table, k);
    gather_line(rt, room, waiting, &out, size)
}

// Puts the line of the name at a position, and answers its size; none where the index has no such entry.
fn put_name(out: &mut [u8], v: &[u8], index: &[u8], table: &[u64], k: usize) -> usize {
    let Some(entry) = entry_at(index, entry_place(index, k)) else {
        return 0;
    };
    let head = put_head(out, entry.name, count_at(table, k, 0));
    let end = match spans_at(v, entry.start).chances {
        Some(chances) => put_chances(out, head, v, chances, table, k),
        None => head,
    };
    put(out, end, b"\n")
}

// Puts the overs at each chance of a record's chances; the lowest chance that was exceeded is marked.
fn put_chances(
    out: &mut [u8],
    from: usize,
    v: &[u8],
    chances: Span,
    table: &[u64],
    k: usize,
) -> usize {
    let place = chances.first;
    let count = chances.count.min(MOST_CHANCES);
    let first = first_exceeded(v, place, count, table, k);
    let mut end = from;
    for j in 0..count {
        let chance = chance_at(v, place, j);
        let overs = count_at(table, k, j + 1);
        end = put_chance(out, end, chance, overs, first == Some(j));
    }
    end
}

// Which of the chances is the first that was exceeded.
fn first_exceeded(v: &[u8], place: usize, count: usize, table: &[u64], k: usize) -> Option<usize>
    requires { count ≤ 8 }
{
    let links = count_at(table, k, 0);
    for j in 0..count {
        let chance = chance_at(v, place, j);
        let overs = count_at(table, k, j + 1);
        if journal_trial::exceeds(links, chance, overs) {
            return Some(j);
        }
    }
    None
}

// A chance of the record whose chances stand from a place on.
fn chance_at(v: &[u8], place: usize, j: usize) -> u64
    requires { j ≤ 8 }
{
    number_in(v, place.wrapping_add(4 * j), 4)
}
