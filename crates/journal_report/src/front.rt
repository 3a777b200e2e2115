// The first columns of a line: name, date and mark.
// The record's sections stand inside the bytes.
ghost use Rattle.std.specs.Prelude.{◌≡◌, Some, [], ◌∷◌, ◌++◌, ◌+◌, ◌≤◌, length};
ghost use Rattle.text_digits.specs.Text.{Put};
ghost use Rattle.text_dates.specs.Iso.{iso_of};
ghost use Rattle.journal_spec.specs.Bytes.{number_at};
ghost use Rattle.journal_spec.specs.Read.{letter_of, mark_of};
ghost use Rattle.journal_parts.specs.Spans.{Inside, all_of, numbers_of, record_in, spans_at};
ghost use Rattle.journal_report.specs.Slot.{gap, name_column, front_columns};

use crate::cells::{put_fill, put_gap};
use journal::marks::{letter_of, mark_of};
use journal_parts::{Sections, Span, number_in};
use text_dates::put_date;
use text_digits::put;

// Name, date and mark of the record at a place, at the front of the line.
pub(crate) fn put_front(
    v: &[u8],
    at: usize,
    s: Sections,
    width: usize,
    tabs: bool,
    out: &mut [u8],
) -> usize
    requires { all_of (spans_at at v.now) ≡ Some s }
    ensures { Put out.old 0 (front_columns tabs width (record_in at s v.now)) out.new result }
{
    let p = put_name(v, s.name, width, tabs, out);
    let q = put_day(v, at, tabs, out, p);
    put_mark(v, s.times, tabs, out, q)
}

// The name, with spaces behind it to the width.
fn put_name(v: &[u8], name: Span, width: usize, tabs: bool, out: &mut [u8]) -> usize
    requires { Inside 1 name v.now }
    ensures { Put out.old 0 (name_column tabs width (numbers_of 1 name v.now)) out.new result }
{
    let p = put(out, 0, &v[name.first..name.first + name.count]);
    put_fill(out, p, tabs, width, name.count)
}

// The date of the record's day.
fn put_day(v: &[u8], at: usize, tabs: bool, out: &mut [u8], place: usize) -> usize
    requires { at + 4 ≤ length v.now }
    ensures { Put out.old place (gap tabs ∷ iso_of (number_at 2 (at + 2) v.now)) out.new result }
{
    let day = number_in(v, at + 2, 2);
    let p = put_gap(out, place, tabs);
    put_date(out, p, (day % 65_536) as u16)
}

// The mark's letter.
fn put_mark(v: &[u8], times: Span, tabs: bool, out: &mut [u8], place: usize) -> usize
    requires { Inside 4 times v.now }
    ensures { Put out.old place
        (gap tabs ∷ letter_of (mark_of (numbers_of 4 times v.now)) ∷ []) out.new result }
{
    let first = times.first;
    let end = first + times.count * 4;
    let letter = letter_of(mark_of(&v[first..end]));
    let p = put_gap(out, place, tabs);
    put(out, p, &[letter])
}
