// A record's key: those of its bytes by which its place is sorted. Nothing is assumed of the bytes or the place.
ghost use Rattle.std.specs.Prelude.{◌≡◌, take};
ghost use Rattle.journal_parts.specs.Front.{record_size};
ghost use Rattle.journal_order.specs.Keys.{key_at};

use journal_parts::{record_name, record_size};

// As many records as a journal can hold: 65,536 bytes, 33 at least for each.
pub const MOST: usize = 1985;

// The record's name, or all its bytes. An enum and no closure: the specs' key_at goes by it, and two keys are no plainer as functions.
#[derive(Clone, Copy)]
pub enum Key {
    Name,
    Record,
}

// A journal's bytes, and the key by which the places of its records are sorted.
#[derive(Clone, Copy)]
pub struct Keyed<'a> {
    pub bytes: &'a [u8],
    pub key: Key,
}

impl<'a> Keyed<'a> {
    // The key of the record at a place.
    pub fn key_at(&self, at: usize) -> &'a [u8]
        ensures { result.now ≡ key_at self.now.key self.now.bytes.now at }
    {
        let record = self.bytes.get(at..).unwrap_or(&[]);
        match self.key {
            Key::Name => record_name(record),
            Key::Record => all_of(record),
        }
    }
}

// All its bytes, as far as they stand.
fn all_of<'a>(b: &'a [u8]) -> &'a [u8]
    ensures { result.now ≡ take (record_size b.now) b.now }
{
    &b[..record_size(b).min(b.len())]
}
