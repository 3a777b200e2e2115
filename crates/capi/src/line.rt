// One line of the listing of a journal that is all of a slice: a record's line for each record, then the line of the end state.
// Each call scans the journal, so that no state stands between calls; a Rattle program calls crate journal_listing's functions in turn instead.
ghost use Rattle.std.specs.Prelude.{◌≡◌};
ghost use Rattle.text_digits.specs.Text.{Put};
ghost use Rattle.journal_listing.specs.Lines.{position_of, step};
ghost use Rattle.capi.specs.Line.{line_at};

use journal::Rule;
use journal_listing::Cursor;

// Writes line i, counted from 0, as much of it as there is room for, and answers how many bytes that is: 0 where there is no such line.
pub fn journal_line(v: &[u8], i: usize, out: &mut [u8]) -> usize
    ensures { Put out.old 0 (line_at i v.now) out.new result }
{
    let cursor = cursor_before(v, i);
    let line = journal_listing::next_line(v, cursor, out);
    line.size
}

// A cursor whose next line is line i. Behind the last line it goes no further.
fn cursor_before(v: &[u8], i: usize) -> Cursor
    ensures { (step (position_of result) v.now).text ≡ line_at i v.now }
{
    let mut cursor = journal_listing::start(v, Rule::Plain);
    for _ in 0..i {
        if cursor.ended {
            return cursor;
        }
        cursor = next_cursor(v, cursor);
    }
    cursor
}

// The cursor behind the next line.
fn next_cursor(v: &[u8], cursor: Cursor) -> Cursor
    ensures { position_of result ≡ (step (position_of cursor) v.now).position }
{
    let mut text = [0u8; 1];
    let line = journal_listing::next_line(v, cursor, &mut text);
    line.cursor
}
