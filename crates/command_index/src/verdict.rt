// What became of an index as a line of text, put at the front of a lent buffer.
// Its words and numbers are put as the listing puts its own.
ghost use Rattle.std.specs.Prelude.{◌≡◌};
ghost use Rattle.text_digits.specs.Text.{Put};
ghost use Rattle.journal_index.specs.Checked.{check_meaning};
ghost use Rattle.journal_index.specs.Made.{made_meaning};
ghost use Rattle.command_index.specs.Verdict.{made_line, made_status, checked_line, checked_status, error_line};

use command_io::Status;
use journal_index::IndexError;
use journal_listing::{put_word, put_words};

// An index that is made, by its length, or not.
pub fn made_line(answer: Result<usize, IndexError>, out: &mut [u8]) -> usize
    ensures { Put out.old 0 (made_line (made_meaning answer)) out.new result }
{
    match answer {
        Ok(n) => put_word(out, b"indexed", n as u64),
        Err(error) => error_line(error, out),
    }
}

// Whether an index is the volume's, by the answer and the length that its entries come to.
pub fn checked_line(answer: Result<(), IndexError>, size: usize, out: &mut [u8]) -> usize
    ensures { Put out.old 0 (checked_line size (check_meaning answer)) out.new result }
{
    match answer {
        Ok(()) => put_word(out, b"own", size as u64),
        Err(error) => error_line(error, out),
    }
}

// The line of an index that is not made, or not the volume's.
fn error_line(error: IndexError, out: &mut [u8]) -> usize
    ensures { Put out.old 0 (error_line error) out.new result }
{
    match error {
        IndexError::Declined(refusal) => put_word(out, b"declined", refusal.number() as u64),
        IndexError::Damaged(f) => put_words(
            out,
            b"damaged",
            f.refusal.number() as u64,
            f.place as u64,
        ),
    }
}

// The exit status that each decides.
pub fn made_status(answer: Result<usize, IndexError>) -> Status
    ensures { result ≡ made_status (made_meaning answer) }
{
    match answer {
        Ok(_) => Status::Done,
        Err(IndexError::Declined(_)) => Status::Refused,
        Err(IndexError::Damaged(_)) => Status::Refused,
    }
}

pub fn checked_status(answer: Result<(), IndexError>) -> Status
    ensures { result ≡ checked_status (check_meaning answer) }
{
    match answer {
        Ok(()) => Status::Done,
        Err(IndexError::Declined(_foreign)) => Status::Refused,
        Err(IndexError::Damaged(_)) => Status::Refused,
    }
}
