// The verdict on standard output, then what it means on standard error; and what is wrong with the input.
// The status is the verdict's; failed where the verdict could not be written.
use crate::verdict::{status_of, verdict_line};
use command_io::{Status, fail_system, print_verdict, write_error, write_error_decimal};
use journal::{AppendError, Fault};
use std::io::Error;

// Prints the verdict, as the last line of the output, and answers the status.
pub(crate) fn answered(rt: &HostRuntime, answer: Result<usize, AppendError>) -> Status {
    let mut out = [0u8; journal_listing::MAX_LINE];
    let size = verdict_line(answer, &mut out);
    let written = print_verdict(rt, &out[..size]);
    if written && let Err(error) = answer {
        explain(rt, error);
    }
    status_of(answer).if_written(written)
}

// What a refusal means.
fn explain(rt: &HostRuntime, error: AppendError) {
    match error {
        AppendError::Declined(refusal) => command_words::refused(rt, refusal),
        AppendError::DeclinedAt(Fault { refusal, place }) => {
            command_words::refused_log(rt, refusal, place)
        }
        AppendError::Damaged(Fault { refusal, place }) => {
            command_words::damaged(rt, refusal, place)
        }
    };
}

// Standard input, where a read of it fails.
pub(crate) fn fail_input(rt: &HostRuntime, error: Error) -> Status {
    fail_system(rt, b"awaqlla: standard input", error);
    Status::Failed
}

// The word of a kind, counted from 1, that is no number, and between which numbers one is good.
pub(crate) fn malformed(rt: &HostRuntime, what: &[u8], which: usize, range: &[u8]) -> Status {
    write_error(rt, b"awaqlla: ");
    write_error(rt, what);
    write_error(rt, b" ");
    write_error_decimal(rt, which as u64);
    write_error(rt, b": not a decimal number from ");
    write_error(rt, range);
    write_error(rt, b" without leading zeros\n");
    Status::Failed
}

// The tick behind so many that is no number.
pub(crate) fn malformed_tick(rt: &HostRuntime, before: usize) -> Status {
    malformed(
        rt,
        b"standard input: tick",
        before.wrapping_add(1),
        b"1 to 1048575",
    )
}
