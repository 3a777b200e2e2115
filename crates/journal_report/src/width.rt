// The width of the names' column, by one pass over an index's entries.
// Where an entry does not stand whole in the buffer, the entries end.
ghost use Rattle.std.specs.Prelude.{◌≡◌};
ghost use Rattle.journal_entries.specs.Entries.{entries_in};
ghost use Rattle.journal_report.specs.Report.{width_of};

use journal_entries::entry_at;
use journal_parts::number_in;

// The width of the head's `name`, the least.
const HEAD_WIDTH: usize = 4;

// The width of the longest name, and no less than its head's.
pub fn name_width(index: &[u8]) -> usize
    ensures { result ≡ width_of (entries_in index.now) }
{
    let mut width = HEAD_WIDTH;
    let mut at: usize = 2;
    for _ in 0..number_in(index, 0, 2) {
        let Some(entry) = entry_at(index, at) else {
            return width;
        };
        width = width.max(entry.name.len());
        at += entry.size();
    }
    width
}
