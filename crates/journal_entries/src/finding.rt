// A name among the entries: the place of its entry, or where it would be; and the start that its entry has.
// Names rise, so that the search for a place ends at the first entry above the name.
ghost use Rattle.std.specs.Prelude.{◌≡◌};
ghost use Rattle.journal_spec.specs.Indexed.{look_up};
ghost use Rattle.journal_entries.specs.Entries.{entries_in};
ghost use Rattle.journal_entries.specs.Places.{find_in};
ghost use Rattle.journal_entries.specs.Answers.{start_meaning};

use crate::names::order_of;
use crate::walking::entry_at;
use journal_parts::number_in;
use std::cmp::Ordering;

// The place of the name's entry; or, where it has none, of the first entry above it, or behind the last.
pub fn find(index: &[u8], name: &[u8]) -> Result<usize, usize>
    ensures { result ≡ find_in name.now 2 (entries_in index.now) }
{
    let count = number_in(index, 0, 2);
    let mut place: usize = 2;
    for _ in 0..count {
        let Some(entry) = entry_at(index, place) else {
            return Err(place);
        };
        match order_of(name, entry.name) {
            Ordering::Less => return Err(place),
            Ordering::Equal => return Ok(place),
            Ordering::Greater => place += entry.size(),
        }
    }
    Err(place)
}

// The start that the name's entry has.
pub fn look_up(index: &[u8], name: &[u8]) -> Option<usize>
    ensures { start_meaning result ≡ look_up name.now (entries_in index.now) }
{
    let mut at: usize = 2;
    for _ in 0..number_in(index, 0, 2) {
        let entry = entry_at(index, at)?;
        if entry.is_name(name) {
            return Some(entry.start);
        }
        at += entry.size();
    }
    None
}
