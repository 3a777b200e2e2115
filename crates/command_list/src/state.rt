// The end state of a journal: its line, what is said of it in words, and the exit status.
// The journal is scanned once.
ghost use Rattle.std.specs.Prelude.{◌≡◌};
ghost use Rattle.text_digits.specs.Text.{Put};
ghost use Rattle.journal.specs.Answers.{meaning};
ghost use Rattle.journal_listing.specs.Listing.{state_line};
ghost use Rattle.command_list.specs.Ends.{end_status};

use crate::volume::{read_volume, rule_of};
use command_io::{Kind, Options, input_room, print_verdict, say_last};
use command_words::{damaged, torn};
use journal::{Fault, Rule, Status};
use journal_listing::{Cursor, MAX_LINE, next_line, start};

// Writes the line of an end state to the front of the buffer, and answers how many bytes it takes there.
pub fn state_line(v: &[u8], status: Status, out: &mut [u8]) -> usize
    ensures { Put out.old 0 (state_line (meaning status)) out.new result }
{
    let cursor = Cursor {
        at: 0,
        left: 0,
        ended: false,
        status,
    };
    next_line(v, cursor, out).size
}

// The exit status of an end state: done where it is whole, refused where it is torn or damaged.
pub fn end_status(status: Status) -> command_io::Status
    ensures { result ≡ end_status (meaning status) }
{
    match status {
        Status::Whole { .. } => command_io::Status::Done,
        Status::Torn { .. } => command_io::Status::Refused,
        Status::Damaged(_) => command_io::Status::Refused,
    }
}

// Says in words what an end state is, where it is not whole, and answers its exit status.
pub fn ended(rt: &HostRuntime, status: Status) -> command_io::Status {
    match status {
        Status::Whole { .. } => command_io::Status::Done,
        Status::Torn { committed, .. } => torn(rt, committed),
        Status::Damaged(Fault { refusal, place }) => damaged(rt, refusal, place),
    }
}

// The command survey: the line of the end state.
pub fn survey(rt: &HostRuntime, o: Options, kinds: &[Kind]) -> command_io::Status {
    let mut room = input_room();
    match read_volume(rt, o.first, kinds, &mut room) {
        Ok(v) => print_state(rt, v, rule_of(o)),
        Err(unread) => command_io::Status::from(unread),
    }
}

// The line of a journal's end state, and what is said of it.
fn print_state(rt: &HostRuntime, v: &[u8], rule: Rule) -> command_io::Status {
    close_with(rt, v, start(v, rule).status, true)
}

// The line of an end state where what stands before it was written; where not, it is said that this would be the last line.
pub fn close_with(rt: &HostRuntime, v: &[u8], status: Status, written: bool) -> command_io::Status {
    if !written {
        return say_state(rt, v, status);
    }
    if print_end(rt, v, status) {
        ended(rt, status)
    } else {
        command_io::Status::Failed
    }
}

// Prints the line of an end state; whether it was written.
fn print_end(rt: &HostRuntime, v: &[u8], status: Status) -> bool {
    let mut out = [0u8; MAX_LINE];
    let size = state_line(v, status, &mut out);
    print_verdict(rt, &out[..size])
}

// Says that the end state's line would have been the last, where it could not be written.
pub(crate) fn say_state(rt: &HostRuntime, v: &[u8], status: Status) -> command_io::Status {
    let mut out = [0u8; MAX_LINE];
    let size = state_line(v, status, &mut out);
    say_last(rt, &out[..size]);
    command_io::Status::Failed
}
