// The verdict of a merge on standard output, then what it means on standard error.
// The status is the verdict's; failed where the verdict could not be written.
use crate::verdict::{status_of, verdict_line};
use command_io::{Status, print_verdict};
use journal::Fault;
use journal_merge::{MergeError, Whose};

// Prints the verdict, as the last line of the output, and answers the status.
pub(crate) fn answered(rt: &HostRuntime, answer: Result<usize, MergeError>) -> Status {
    let mut out = [0u8; journal_listing::MAX_LINE];
    let size = verdict_line(answer, &mut out);
    let written = print_verdict(rt, &out[..size]);
    if written {
        explain(rt, answer);
    }
    status_of(answer).if_written(written)
}

// What the verdict means.
fn explain(rt: &HostRuntime, answer: Result<usize, MergeError>) {
    match answer {
        Ok(_) => {}
        Err(MergeError::Declined(_)) => {
            command_words::full_merge(rt);
        }
        Err(MergeError::DeclinedAt(Fault { refusal, place })) => {
            command_words::refused_merge(rt, refusal, place);
        }
        Err(MergeError::DeclinedOf { whose, .. }) => {
            command_words::refused_torn(rt, whose == Whose::Second);
        }
        Err(
            MergeError::Damaged {
                whose,
                fault: Fault { refusal, place },
            },
        ) => {
            command_words::damaged_of(rt, refusal, place, whose == Whose::Second);
        }
    }
}
