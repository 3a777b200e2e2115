// The verdict of an append as a line of text, put at the front of a lent buffer.
// Its words and numbers are put as the listing puts its own.
ghost use Rattle.std.specs.Prelude.{◌≡◌, Err};
ghost use Rattle.text_digits.specs.Text.{Put};
ghost use Rattle.journal.specs.Answers.{append_meaning};
ghost use Rattle.command_append.specs.Verdict.{verdict_line, verdict_status};

use command_io::Status;
use journal::AppendError;
use journal_listing::{put_word, put_words};

// Writes the line, and answers how many bytes it takes.
pub fn verdict_line(answer: Result<usize, AppendError>, out: &mut [u8]) -> usize
    ensures { Put out.old 0 (verdict_line (append_meaning answer)) out.new result }
{
    match answer {
        Ok(n) => put_word(out, b"extended", n as u64),
        Err(error) => error_line(error, out),
    }
}

// The line of an append that changes nothing.
fn error_line(error: AppendError, out: &mut [u8]) -> usize
    ensures { Put out.old 0 (verdict_line (append_meaning (Err error))) out.new result }
{
    match error {
        AppendError::Declined(refusal) => put_word(out, b"declined", refusal.number() as u64),
        AppendError::DeclinedAt(f) => put_words(
            out,
            b"log",
            f.refusal.number() as u64,
            f.place as u64,
        ),
        AppendError::Damaged(f) => put_words(
            out,
            b"damaged",
            f.refusal.number() as u64,
            f.place as u64,
        ),
    }
}

// The exit status that it decides.
pub fn status_of(answer: Result<usize, AppendError>) -> Status
    ensures { result ≡ verdict_status (append_meaning answer) }
{
    match answer {
        Ok(_) => Status::Done,
        Err(AppendError::Declined(_)) => Status::Refused,
        Err(AppendError::DeclinedAt(_)) => Status::Refused,
        Err(AppendError::Damaged(_)) => Status::Refused,
    }
}
