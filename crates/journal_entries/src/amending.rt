// The index in a buffer amended by a record: the start of its name's entry is replaced, or an entry is inserted in its place and the count raised.
// Every byte beyond the index stays, and where the amended index has no room every byte does.
ghost use Rattle.std.specs.Prelude.{◌≡◌, ℕ, ◌+◌, ◌-◌, ◌≤◌, ◌<◌, length, take, drop, leb, is_ok, false};
ghost use Rattle.journal_spec.specs.Append.{written};
ghost use Rattle.journal_entries.specs.Amending.{next_bytes, amended_in, Opened};
ghost use Rattle.journal_entries.specs.Places.{place_of};

use crate::finding::find;
use crate::walking::{End, end_of};
use crate::writing::{put_count, put_entry};

// Whether the buffer can hold the index with a record of the name in it, whatever the record's start.
pub fn has_room(index: &[u8], name: &[u8]) -> bool
    ensures { (start : ℕ) → result
        ≡ leb (length (next_bytes (record { name = name.entry.now; start = start }) index.now)) (length index.now) }
{
    let Some(room) = index.len().checked_sub(end_of(index).place) else {
        return false;
    };
    match find(index, name) {
        Ok(_) => true,
        Err(_) => name.len() + 6 <= room,
    }
}

// Amends the index by a record of the name with its start.
pub fn amend(index: &mut [u8], name: &[u8], start: usize)
    ensures { index.new ≡ amended_in (record { name = name.entry.now; start = start }) index.old }
{
    if !has_room(index, name) {
        return;
    }
    let found = find(index, name);
    let end = end_of(index);
    let size = name.len() + 6;
    let count = open(index, found, end, size);
    let (Ok(place) | Err(place)) = found;
    put_entry(index, place, name, start);
    put_count(index, count);
}

// Room for an entry of so many bytes, where the name has none. Answers how many entries there are then.
fn open(index: &mut [u8], found: Result<usize, usize>, end: End, size: usize) -> usize
    requires place_le_place { (place_of found ≤ end.place) × (end.place ≤ length index.old) × (end.count < length index.old) }
    requires size_in_bounds { is_ok found ≡ false → end.place + size ≤ length index.old }
    ensures { Opened index.old found end size result index.new }
{
    match found {
        Ok(_) => end.count,
        Err(place) => {
            shift(index, place, end.place, size);
            end.count + 1
        }
    }
}

// Moves the bytes between two places up, the last one first. A loop: `copy_within` has the archive for C ask for memmove.
fn shift(index: &mut [u8], from: usize, to: usize, size: usize)
    requires { (from ≤ to) × (to + size ≤ length index.old) }
    ensures { index.new ≡ written index.old (from + size) (take (to - from) (drop from index.old)) }
{
    for i in (from..to).rev() {
        index[i + size] = index[i];
    }
}
