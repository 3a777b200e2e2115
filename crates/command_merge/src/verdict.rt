// The verdict of a merge as a line of text, put at the front of a lent buffer.
// Its words stand in the order of the answer's words for C: case, number, place, whose.
ghost use Rattle.std.specs.Prelude.{◌≡◌, Err, [], ◌∷◌, ◌++◌};
ghost use Rattle.text_digits.specs.Text.{Put};
ghost use Rattle.refusals.specs.Refusals.{number_of};
ghost use Rattle.journal_spec.specs.Log.{space, newline};
ghost use Rattle.journal_merge_spec.specs.Merge.{damaged, declined_of};
ghost use Rattle.journal_merge.specs.Answers.{whose_of, answer_of};
ghost use Rattle.command_merge.specs.Verdict.{whose_word, verdict_line, verdict_status};

use command_io::Status;
use journal::Fault;
use journal_listing::{put_number, put_word, put_words};
use journal_merge::{MergeError, Whose};
use refusals::Refusal;
use text_digits::put;

// Writes the line, and answers how many bytes it takes.
pub fn verdict_line(answer: Result<usize, MergeError>, out: &mut [u8]) -> usize
    ensures { Put out.old 0 (verdict_line (answer_of answer)) out.new result }
{
    match answer {
        Ok(n) => put_word(out, b"merged", n as u64),
        Err(error) => error_line(error, out),
    }
}

// The line of a merge that makes nothing.
fn error_line(error: MergeError, out: &mut [u8]) -> usize
    ensures { Put out.old 0 (verdict_line (answer_of (Err error))) out.new result }
{
    match error {
        MergeError::Declined(refusal) => put_word(out, b"declined", refusal.number() as u64),
        MergeError::DeclinedAt(f) => put_words(
            out,
            b"declined",
            f.refusal.number() as u64,
            f.place as u64,
        ),
        MergeError::DeclinedOf { whose, refusal } => put_torn(out, refusal, whose),
        MergeError::Damaged { whose, fault } => put_damage(out, fault, whose),
    }
}

// The exit status that it decides.
pub fn status_of(answer: Result<usize, MergeError>) -> Status
    ensures { result ≡ verdict_status (answer_of answer) }
{
    match answer {
        Ok(_) => Status::Done,
        Err(MergeError::Declined(_)) => Status::Refused,
        Err(MergeError::DeclinedAt(_)) => Status::Refused,
        Err(MergeError::DeclinedOf { .. }) => Status::Refused,
        Err(MergeError::Damaged { .. }) => Status::Refused,
    }
}

// The refusal's number and whose end is torn.
fn put_torn(out: &mut [u8], refusal: Refusal, whose: Whose) -> usize
    ensures { Put out.old 0 (verdict_line (declined_of (whose_of whose) (number_of refusal))) out.new result }
{
    let word = put(out, 0, b"declined");
    let number = put_number(out, word, refusal.number() as u64);
    put_whose(out, number, whose)
}

// A fault's number and place, and whose it is.
fn put_damage(out: &mut [u8], fault: Fault, whose: Whose) -> usize
    ensures { Put out.old 0 (verdict_line (damaged (whose_of whose) (number_of fault.refusal) fault.place)) out.new result }
{
    let word = put(out, 0, b"damaged");
    let number = put_number(out, word, fault.refusal.number() as u64);
    let place = put_number(out, number, fault.place as u64);
    put_whose(out, place, whose)
}

// Puts a space, whose it is and the line end.
fn put_whose(out: &mut [u8], at: usize, whose: Whose) -> usize
    ensures { Put out.old at (space ∷ (whose_word (whose_of whose) ++ (newline ∷ []))) out.new result }
{
    match whose {
        Whose::First => put(out, at, b" first\n"),
        Whose::Second => put(out, at, b" second\n"),
    }
}
