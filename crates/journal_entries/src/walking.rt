// Going over the entries by their counts: the entry at a place, and the place behind some entries.
// Where an entry does not stand whole in the buffer, the entries end.
ghost use Rattle.std.specs.Prelude.{◌≡◌, ◌+◌, ◌&&◌, eqb, take, length, MatchOption};
ghost use Rattle.text_digits.specs.Same.{same_bytes};
ghost use Rattle.journal_spec.specs.Index.{entries_size};
ghost use Rattle.journal_entries.specs.Entries.{EntryIs, size_at, entries_from, entries_in};
ghost use Rattle.journal_entries.specs.Places.{end_of};

use journal_parts::number_in;

// An entry: its name, as it stands in the index, and the start of that name's last record.
#[derive(Clone, Copy)]
pub struct Entry<'a> {
    pub name: &'a [u8],
    pub start: usize,
}

impl Entry<'_> {
    // How many bytes it has: those of the name, two for their count and four for the start.
    pub fn size(&self) -> usize
        ensures { result ≡ length self.now.name.now + 6 }
    {
        self.name.len() + 6
    }

    // Whether it has the name. Of names that begin alike the last byte tells most apart.
    pub fn is_name(&self, name: &[u8]) -> bool
        ensures { result ≡ same_bytes self.now.name.now name.now }
    {
        self.name.last() == name.last() && self.name == name
    }

    // Whether it has the name and the start.
    pub fn is_entry(&self, name: &[u8], start: usize) -> bool
        ensures { result ≡ (same_bytes self.now.name.now name.now && eqb self.now.start start) }
    {
        self.is_name(name) && self.start == start
    }
}

// The place behind entries, and how many they are.
#[derive(Clone, Copy)]
pub struct End {
    pub place: usize,
    pub count: usize,
}

// The entry at a place, where it stands whole.
pub fn entry_at<'a>(index: &'a [u8], at: usize) -> Option<Entry<'a>>
    ensures { MatchOption result (size_at index.now at ≡ 0) (λ e. EntryIs index.now at e.name.now e.start) }
{
    // Two tests and no checked_sub: the walk over the entries then takes 11 instructions an entry in place of 18.
    if index.len() < at {
        return None;
    }
    let room = index.len() - at;
    if room < 6 {
        return None;
    }
    let count = number_in(index, at, 2) as usize;
    if room - 6 < count {
        return None;
    }
    let first = at + 2;
    let end = first + count;
    Some(Entry {
        name: &index[first..end],
        start: number_in(index, end, 4) as usize,
    })
}

// The place behind all entries.
pub fn end_of(index: &[u8]) -> End
    ensures { result ≡ end_of (entries_in index.now) }
{
    walk(index, number_in(index, 0, 2) as usize)
}

// The place of the entry at a position from 0, or the place behind all where there is none.
pub fn entry_place(index: &[u8], position: usize) -> usize
    ensures { result ≡ 2 + entries_size (take position (entries_in index.now)) }
{
    let count = number_in(index, 0, 2) as usize;
    walk(index, position.min(count)).place
}

// The place behind the first n entries.
fn walk(index: &[u8], n: usize) -> End
    ensures { result ≡ end_of (entries_from index.now n 2) }
{
    let mut place: usize = 2;
    for count in 0..n {
        let Some(entry) = entry_at(index, place) else {
            return End { place, count };
        };
        place += entry.size();
    }
    End { place, count: n }
}
