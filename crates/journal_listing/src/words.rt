// The two kinds of lines: a record's, from the places of its sections, and that of the end state, a word and its numbers.
// Both are put at the front of a lent buffer and answer how many bytes they take.
ghost use Rattle.std.specs.Prelude.{◌≡◌, Some, [], ◌∷◌, ◌++◌, ◌+◌, ◌≤◌, length};
ghost use Rattle.text_digits.specs.Hex.{decimal_digits};
ghost use Rattle.text_digits.specs.Text.{Put};
ghost use Rattle.journal.specs.Answers.{meaning};
ghost use Rattle.journal_spec.specs.Bytes.{number_at};
ghost use Rattle.journal_spec.specs.Read.{letter_of, mark_of};
ghost use Rattle.journal_spec.specs.Log.{space};
ghost use Rattle.journal_listing.specs.Listing.{line_of, record_line, state_line};
ghost use Rattle.journal_parts.specs.Spans.{Inside, all_of, numbers_of, record_in, spans_at};

use crate::moments::moments_at;
use crate::text::{put_limits, put_moments};
use journal::Status;
use journal::marks::{letter_of, mark_of};
use journal_parts::{Sections, Span, number_in};
use text_digits::{put, put_decimal};

// The line of the record at a place, whose sections stand.
pub(crate) fn put_record(b: &[u8], at: usize, s: Sections, out: &mut [u8]) -> usize
    requires { all_of (spans_at at b.now) ≡ Some s }
    ensures { Put out.old 0 (record_line (record_in at s b.now)) out.new result }
{
    let p = put_front(b, at, s.name, out);
    let q = put_mark(b, s.times, out, p);
    let worked = moments_at(b, at, s.times);
    let r = put_moments(out, q, worked);
    let t = put_limits(b, s.chances, s.limits, out, r);
    put(out, t, b"\n")
}

// The name, a space and the day.
fn put_front(b: &[u8], at: usize, name: Span, out: &mut [u8]) -> usize
    requires { (at + 4 ≤ length b.now) × Inside 1 name b.now }
    ensures { Put out.old 0
        (numbers_of 1 name b.now ++ (space ∷ decimal_digits (number_at 2 (at + 2) b.now))) out.new result }
{
    let p = put(out, 0, &b[name.first..name.first + name.count]);
    let q = put(out, p, b" ");
    let day = number_in(b, at + 2, 2);
    put_decimal(out, q, day)
}

// A space and the mark's letter.
fn put_mark(b: &[u8], times: Span, out: &mut [u8], at: usize) -> usize
    requires { Inside 4 times b.now }
    ensures { Put out.old at
        (space ∷ letter_of (mark_of (numbers_of 4 times b.now)) ∷ []) out.new result }
{
    let first = times.first;
    let end = first + times.count * 4;
    let letter = letter_of(mark_of(&b[first..end]));
    let p = put(out, at, b" ");
    put(out, p, &[letter])
}

// The line of the end state.
pub(crate) fn put_state(status: Status, out: &mut [u8]) -> usize
    ensures { Put out.old 0 (state_line (meaning status)) out.new result }
{
    match status {
        Status::Whole { records, committed } => put_words(
            out,
            b"whole",
            records as u64,
            committed as u64,
        ),
        Status::Torn { records, committed } => put_words(
            out,
            b"torn",
            records as u64,
            committed as u64,
        ),
        Status::Damaged(f) => put_words(
            out,
            b"damaged",
            u64::from(f.refusal.number()),
            f.place as u64,
        ),
    }
}

// A word and two numbers, as a line.
pub fn put_words(out: &mut [u8], word: &[u8], n: u64, m: u64) -> usize
    ensures { Put out.old 0
        (line_of (word.now ∷ decimal_digits n ∷ decimal_digits m ∷ [])) out.new result }
{
    let p = put(out, 0, word);
    let q = put_number(out, p, n);
    let r = put_number(out, q, m);
    put(out, r, b"\n")
}

// A word and a number, as a line.
pub fn put_word(out: &mut [u8], word: &[u8], n: u64) -> usize
    ensures { Put out.old 0 (line_of (word.now ∷ decimal_digits n ∷ [])) out.new result }
{
    let behind = put(out, 0, word);
    let end = put_number(out, behind, n);
    put(out, end, b"\n")
}

// A space and a number from a place on.
pub fn put_number(out: &mut [u8], at: usize, n: u64) -> usize
    ensures { Put out.old at (space ∷ decimal_digits n) out.new result }
{
    let p = put(out, at, b" ");
    put_decimal(out, p, n)
}
