// A verdict on standard output, or the line of the record that was looked up; then what a refusal means, on standard error.
// The status is the verdict's; failed where the verdict could not be written.
use crate::found::{LookError, looked_line, looked_status};
use crate::verdict::{checked_line, checked_status, made_line, made_status};
use command_io::{Status, inside, print_verdict};
use journal::Fault;
use journal_index::IndexError;
use journal_listing::MAX_LINE;
use refusals::Refusal;

// An index that is made, or not.
pub(crate) fn answered_made(rt: &HostRuntime, answer: Result<usize, IndexError>) -> Status {
    let mut out = [0u8; MAX_LINE];
    let size = made_line(answer, &mut out);
    answered(rt, inside(size, &out), made_status(answer), || {
        explain(rt, answer.err());
    })
}

// Whether the index is the volume's.
pub(crate) fn answered_checked(rt: &HostRuntime, v: &[u8], index: &[u8]) -> Status {
    let mut out = [0u8; MAX_LINE];
    let answer = journal_index::check_index(v, v.len(), index);
    let end = journal_entries::end_of(index);
    let size = checked_line(answer, end.place, &mut out);
    answered(rt, inside(size, &out), checked_status(answer), || {
        explain(rt, answer.err());
    })
}

// What stands at a name's start.
pub(crate) fn answered_found(
    rt: &HostRuntime,
    found: Result<usize, LookError>,
    b: &[u8],
) -> Status {
    let mut out = [0u8; MAX_LINE];
    let size = looked_line(found, b, &mut out);
    answered(rt, inside(size, &out), looked_status(found), || {
        explain_found(rt, found.err());
    })
}

// Prints a line, then what it means, and answers its status.
fn answered<F: FnOnce()>(rt: &HostRuntime, line: &[u8], status: Status, explain: F) -> Status
    requires { F.IsAlwaysCallable explain }
{
    let written = print_verdict(rt, line);
    if written {
        explain();
    }
    status.if_written(written)
}

// What the refusal of an index means.
fn explain(rt: &HostRuntime, error: Option<IndexError>) {
    match error {
        Some(IndexError::Declined(refusal)) => {
            command_words::refused(rt, refusal);
        }
        Some(IndexError::Damaged(Fault { refusal, place })) => {
            command_words::damaged(rt, refusal, place);
        }
        None => {}
    }
}

// The same of a look-up's.
fn explain_found(rt: &HostRuntime, error: Option<LookError>) {
    match error {
        Some(LookError::Absent) => {
            command_words::refused(rt, Refusal::Absent);
        }
        Some(LookError::Other) => {
            command_words::refused(rt, Refusal::Index);
        }
        Some(LookError::Damaged(Fault { refusal, place })) => {
            command_words::damaged(rt, refusal, place);
        }
        None => {}
    }
}
