// The planner's report of a journal, a line for each name, by the journal's index (request 2026-08): the width of the names' column, the head, and the
// line of the entry at a position. Nothing is assumed of the bytes, and no record is searched for. And the lines of one record's figures.
#![tactic(auto)]

ghost use Rattle.std.specs.Prelude.{◌≡◌};
ghost use Rattle.journal_entries.specs.Entries.{entries_in};
ghost use Rattle.journal_entries.specs.Answers.{start_meaning};
ghost use Rattle.journal_report.specs.Report.{start_at_position, WritesLine};

use journal_entries::{entry_at, entry_place};
use journal_parts::number_in;

mod beginning;
mod cells;
mod figures;
mod front;
mod head;
mod quotes;
mod scatter;
mod slot;
mod width;

pub use beginning::{Begun, begin};
pub use figures::{MAX_FIGURE, limit_line, moment_line};
pub use head::head_line;
pub use slot::{Layout, slot_line};
pub use width::name_width;

// The longest line of a report at up to eight chances: law `report_fits`.
pub const MAX_LINE: usize = 204;

// The line of an index's entry at a position from 0, at the front of the buffer, with the limits at the chances asked for, or with all where none
// is. Answers how many bytes it takes. With the journal's own index it is that of the last standing record of that name.
pub fn entry_line(
    v: &[u8],
    index: &[u8],
    position: usize,
    layout: Layout,
    asked: &[u32],
    out: &mut [u8],
) -> usize
    ensures { WritesLine layout.tabs layout.name asked.now v.now index.now position
        out.old out.new result }
{
    match entry_start(index, position) {
        Some(at) => slot_line(v, at, layout, asked, out),
        None => 0,
    }
}

// The start that the entry at a position has.
fn entry_start(index: &[u8], position: usize) -> Option<usize>
    ensures { start_meaning result ≡ start_at_position (entries_in index.now) position }
{
    let count = number_in(index, 0, 2) as usize;
    if count <= position {
        return None;
    }
    let entry = entry_at(index, entry_place(index, position))?;
    Some(entry.start)
}
