// Standard output: lines, gathered so that one write takes many, and the last line; or a refusal, and then what it means on standard error.
// The status is failed where something could not be written.
use crate::text::put_unknown;
use command_io::{Status, flush, gather, inside, print_verdict};
use journal::Fault;
use journal_trial::TrialError;
use refusals::Refusal;

// What is said where standard output cannot be written.
const OUTPUT: &[u8] = b"awaqlla: standard output: it cannot be written";

// The first bytes of a buffer, as a line that ends in them, behind what waits in the room; how many wait then.
pub(crate) fn gather_line(
    rt: &HostRuntime,
    room: &mut [u8],
    waiting: usize,
    line: &[u8],
    size: usize,
) -> Option<usize> {
    gather(rt, room, waiting, inside(size, line), OUTPUT)
}

// The lines with unknown names, as the last line, behind what waits in the room; whether all of it is written.
pub(crate) fn print_unknown(rt: &HostRuntime, room: &mut [u8], waiting: usize, lines: u64) -> bool {
    let mut out = [0u8; 64];
    let size = put_unknown(&mut out, lines);
    match gather_line(rt, room, waiting, &out, size) {
        Some(last) => flush(rt, room, last, OUTPUT),
        None => false,
    }
}

// A refusal and its place, as the only line; then what it means.
pub(crate) fn refuse(rt: &HostRuntime, error: TrialError) -> Status {
    match error {
        TrialError::Declined(refusal) => refuse_by(rt, b"declined", refusal, 0, || {
            command_words::refused(rt, refusal)
        }),
        TrialError::Damaged(Fault { refusal, place }) => {
            refuse_by(rt, b"damaged", refusal, place, || {
                command_words::damaged(rt, refusal, place)
            })
        }
        TrialError::DeclinedAt(Fault { refusal, place }) => {
            refuse_by(rt, b"log", refusal, place, || {
                command_words::refused_log(rt, refusal, place)
            })
        }
    }
}

// A line of a word, a refusal's number and a place; then what `explain` says.
fn refuse_by<F: FnOnce() -> Status>(
    rt: &HostRuntime,
    word: &[u8],
    refusal: Refusal,
    place: usize,
    explain: F,
) -> Status
    requires { F.IsAlwaysCallable explain }
{
    let mut out = [0u8; journal_listing::MAX_LINE];
    let number = refusal.number();
    let size = journal_listing::put_words(&mut out, word, number as u64, place as u64);
    if print_verdict(rt, inside(size, &out)) {
        explain()
    } else {
        Status::Failed
    }
}
