// Records found by walking from one to the next, which a scan has judged before: the place of a position, and the position of a place.
// The last record of a name is found by the volume's index.
use journal_entries::look_up;
use journal_parts::record_size;

// Where a record stands, and its position.
#[derive(Clone, Copy, Debug, PartialEq, Eq)]
pub(crate) struct Place {
    pub(crate) at: usize,
    pub(crate) i: usize,
}

// The record at a position, of so many; none behind the last.
pub(crate) fn at_position(v: &[u8], records: usize, wanted: usize) -> Option<Place> {
    if records <= wanted {
        return None;
    }
    let mut at = 0;
    for _ in 0..wanted {
        at = place_behind(v, at);
    }
    Some(Place { at, i: wanted })
}

// The last record of a name, of so many, by the volume's index; none where no record has it.
pub(crate) fn last_named(v: &[u8], index: &[u8], records: usize, name: &[u8]) -> Option<Place> {
    let at = look_up(index, name)?;
    Some(Place {
        at,
        i: position_of(v, records, at),
    })
}

// The position of the record that starts at a place, of so many.
fn position_of(v: &[u8], records: usize, place: usize) -> usize {
    let mut at = 0;
    for i in 0..records {
        if place <= at {
            return i;
        }
        at = place_behind(v, at);
    }
    records
}

// The place behind the record at a place.
fn place_behind(v: &[u8], at: usize) -> usize {
    match v.get(at..) {
        Some(rest) => at.wrapping_add(record_size(rest)),
        None => at,
    }
}
