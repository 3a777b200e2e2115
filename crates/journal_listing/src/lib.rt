// The listing of a journal (document 01, Marks and listing), a line at a time: `start` scans the journal once, and each call of
// `next_line` writes one line into a lent buffer. No quantile is worked out again, and nothing is assumed of the bytes or the cursor.
#![tactic(auto)]

ghost use Rattle.std.specs.Prelude.{◌≡◌, false, ◌-◌, ◌<◌};
ghost use Rattle.journal_listing.specs.Lines.{position_of, listed_of, start_of, step, record_step, end_of, Writes};
ghost use Rattle.journal.specs.Answers.{meaning};
ghost use Rattle.journal.specs.Handed.{as_rule};
ghost use Rattle.journal_parts.specs.Plain.{plain_record_at};

use crate::words::{put_record, put_state};
use journal::{Rule, Status};
use journal_parts::spans_at;

pub mod moments;
mod text;
mod words;

pub use words::{put_number, put_word, put_words};

// The longest line: a name of 32 bytes, a day of 5 digits, the mark, mean and spread of 16 digits each, 8 pairs of a chance of 6 digits and a
// limit of 16, the spaces and colons between them and the line's end.
pub const MAX_LINE: usize = 267;

// Where a listing stands: the place of the next record, how many are left, whether the end state's line is written, and that state.
// It has the definition's `Position` field by field, so that its two numbers and its flag stay.
#[derive(Clone, Copy)]
pub struct Cursor {
    pub at: usize,
    pub left: usize,
    pub ended: bool,
    pub status: Status,
}

// How many bytes of the buffer are the line, 0 where there is none, and the cursor behind it.
// No line is empty, so that the number of bytes says both: an Option would say it twice.
#[derive(Clone, Copy)]
pub struct Line {
    pub size: usize,
    pub cursor: Cursor,
}

// The start of the listing of some bytes, all of them the journal, by a rule. The one scan is made here.
pub fn start(v: &[u8], rule: Rule) -> Cursor
    ensures { position_of result ≡ start_of (as_rule rule) v.now }
{
    let status = journal::scan_by(v, v.len(), rule);
    Cursor {
        at: 0,
        left: listed(status),
        ended: false,
        status,
    }
}

// How many records are listed: none where the journal is damaged.
fn listed(status: Status) -> usize
    ensures { result ≡ listed_of (meaning status) }
{
    match status {
        Status::Whole { records, .. } => records,
        Status::Torn { records, .. } => records,
        Status::Damaged(_) => 0,
    }
}

// Writes the next line to the front of the buffer: a record's, after the last record the end state's, and then none.
pub fn next_line(v: &[u8], cursor: Cursor, out: &mut [u8]) -> Line
    ensures { Writes (step (position_of cursor) v.now) out.old result out.new }
{
    if cursor.ended {
        return cursor.no_line();
    }
    if cursor.left == 0 {
        let size = put_state(cursor.status, out);
        return Line {
            size,
            cursor: cursor.at_end(),
        };
    }
    record_line(v, cursor, out)
}

// Writes the line of the record at the cursor's place. Where no record stands there the listing ends.
fn record_line(v: &[u8], cursor: Cursor, out: &mut [u8]) -> Line
    requires { 0 < cursor.left }
    ensures { Writes (record_step (position_of cursor) (cursor.left - 1) (plain_record_at cursor.at v.now))
        out.old result out.new }
{
    let Some(s) = spans_at(v, cursor.at).all() else {
        return cursor.no_line();
    };
    let size = put_record(v, cursor.at, s, out);
    Line {
        size,
        cursor: cursor.past_record(s.limits.next),
    }
}

impl Cursor {
    // The cursor behind a record.
    fn past_record(self, next: usize) -> Cursor
        requires { 0 < self.left }
        ensures { result ≡ record { at = next; left = self.left - 1; ended = false; status = self.status } }
    {
        Cursor {
            at: next,
            left: self.left - 1,
            ended: false,
            ..self
        }
    }

    // The cursor behind the last line.
    #[tactic(auto, unfolding(crate::specs::Lines::position_of, crate::specs::Lines::end_of))]
    fn at_end(self) -> Cursor
        ensures { position_of result ≡ end_of (position_of self) }
    {
        Cursor {
            left: 0,
            ended: true,
            ..self
        }
    }

    // No line, and the cursor behind the last one.
    fn no_line(self) -> Line
        ensures size { result.size ≡ 0 }
        ensures cursor { position_of result.cursor ≡ end_of (position_of self) }
    {
        Line {
            size: 0,
            cursor: self.at_end(),
        }
    }
}
