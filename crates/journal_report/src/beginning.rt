// What a report begins with: one pass over the journal tells its end state and makes its index, by which the lines are found.
// Where the journal is damaged, or the index has no room, there are no lines.
ghost use Rattle.std.specs.Prelude.{◌≡◌};
ghost use Rattle.journal_index.specs.Made.{made_meaning};
ghost use Rattle.journal_report.specs.Begin.{names_made, Begins};

use crate::width::name_width;
use journal::Status;
use journal_entries::end_of;
use journal_index::{IndexError, scan_and_index};

// The journal's end state, how many lines the report has, and the width of the names' column.
#[derive(Clone, Copy)]
pub struct Begun {
    pub status: Status,
    pub names: usize,
    pub width: usize,
}

// Begins the report of a journal that is all of a slice, with its index in a lent buffer.
pub fn begin(v: &[u8], index: &mut [u8]) -> Begun
    ensures { Begins v.now index.old index.new result }
{
    let scanned = scan_and_index(v, v.len(), index);
    let width = name_width(index);
    Begun {
        status: scanned.status,
        names: names_of(scanned.made, index),
        width,
    }
}

// How many entries an index has, where one is made.
fn names_of(made: Result<usize, IndexError>, index: &[u8]) -> usize
    ensures { result ≡ names_made (made_meaning made) index.now }
{
    match made {
        Ok(_) => end_of(index).count,
        Err(_) => 0,
    }
}
