// The command list: a line for each record in pieces of many lines, and the end state.
// Nothing but the listing's format goes to standard output; what fails is said on standard error.
ghost use Rattle.std.specs.Prelude.{◌≡◌, IfSome};
ghost use Rattle.journal_listing.specs.Lines.{position_of, step};

use crate::state::{ended, say_state};
use crate::volume::{read_volume, rule_of};
use command_io::{Kind, Options, flush, gather, input_room};
use journal::{Rule, Status};
use journal_listing::{Cursor, MAX_LINE, next_line, start};

// How many bytes wait in the room, and the cursor behind the line.
#[derive(Clone, Copy)]
struct Printed {
    waiting: usize,
    cursor: Cursor,
}

// The end state, and whether the listing was written: it is known, and said, in either case.
#[derive(Clone, Copy, Debug, PartialEq, Eq)]
pub struct Listed {
    pub written: bool,
    pub status: Status,
}

// The command.
pub fn list(rt: &HostRuntime, o: Options, kinds: &[Kind]) -> command_io::Status {
    let mut room = input_room();
    match read_volume(rt, o.first, kinds, &mut room) {
        Ok(v) => list_volume(rt, v, rule_of(o)),
        Err(unread) => command_io::Status::from(unread),
    }
}

// The listing of a journal, and what is said of its end state.
fn list_volume(rt: &HostRuntime, v: &[u8], rule: Rule) -> command_io::Status {
    let Listed { written, status } = print_listing(
        rt,
        v,
        rule,
        b"awaqlla: standard output: it cannot be written",
    );
    if written {
        ended(rt, status)
    } else {
        say_state(rt, v, status)
    }
}

// The records' lines, and then that of the end state. They are gathered, so that a write takes many.
pub fn print_listing(rt: &HostRuntime, v: &[u8], rule: Rule, output: &[u8]) -> Listed {
    let mut room = io::large_buffer();
    let cursor = start(v, rule);
    let status = cursor.status;
    let written = match gather_lines(rt, v, cursor, &mut room, output) {
        Some(waiting) => flush(rt, &room, waiting, output),
        None => false,
    };
    Listed { written, status }
}

// The lines from a cursor on, gathered in the room; how many bytes wait there, none where a write failed.
fn gather_lines(
    rt: &HostRuntime,
    v: &[u8],
    from: Cursor,
    room: &mut [u8],
    output: &[u8],
) -> Option<usize> {
    let mut waiting = 0;
    let mut cursor = from;
    while cursor.left > 0 {
        let printed = print_line(rt, v, cursor, room, waiting, output)?;
        waiting = printed.waiting;
        cursor = printed.cursor;
    }
    let last = print_line(rt, v, cursor, room, waiting, output)?;
    Some(last.waiting)
}

// The next line, behind what waits in the room; none where a write failed.
fn print_line(
    rt: &HostRuntime,
    v: &[u8],
    cursor: Cursor,
    room: &mut [u8],
    waiting: usize,
    output: &[u8],
) -> Option<Printed>
    ensures { IfSome result (λ p. position_of p.cursor ≡ (step (position_of cursor) v.now).position) }
{
    let mut out = [0u8; MAX_LINE];
    let line = next_line(v, cursor, &mut out);
    let size = line.size;
    let waiting = gather(rt, room, waiting, &out[..size], output)?;
    Some(Printed {
        waiting,
        cursor: line.cursor,
    })
}
