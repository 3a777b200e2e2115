// Whether bytes are an index or the first bytes of one, so that a file of them may be written over; no bytes at all are the first of every index.
// Which records it is of is not judged here.
ghost use Rattle.std.specs.Prelude.{◌≡◌, ◌+◌, ◌≤◌, ◌<◌, length, take, drop};
ghost use Rattle.limit.specs.Times.{in_range};
ghost use Rattle.journal_spec.specs.Bytes.{number_at};
ghost use Rattle.journal_spec.specs.Record.{min_byte, max_byte};
ghost use Rattle.journal_spec.specs.Tests.{each};
ghost use Rattle.journal_index.specs.Begun.{max_index, entry_ranges, is_begun};

use crate::longest::MAX_INDEX;
use journal_entries::{entry_at, is_below};
use journal_parts::number_in;

// The most entries: a record has 33 bytes or more.
const MAX_ENTRIES: u64 = 1_985;

// A name: its most bytes, and the lowest and the highest of them. Its start is inside the longest volume.
const MAX_NAME: usize = 32;

const MIN_BYTE: u8 = 0x21;

const MAX_BYTE: u8 = 0x7e;

const MAX_LENGTH: u64 = 65_536;

// Whether the bytes are an index, whole or cut, with nothing behind it.
pub fn is_begun(b: &[u8]) -> bool
    ensures { result ≡ is_begun b.now }
{
    if MAX_INDEX < b.len() {
        return false;
    }
    let count = number_so_far(b, 0, 2);
    if MAX_ENTRIES < count {
        return false;
    }
    let mut low = &b[..0];
    let mut at: usize = 2;
    for _ in 0..count {
        if b.len() <= at {
            return true;
        }
        if !is_in_range(b, at) {
            return false;
        }
        let Some(entry) = entry_at(b, at) else {
            return true;
        };
        if !is_below(low, entry.name) {
            return false;
        }
        low = entry.name;
        at += entry.size();
    }
    b.len() <= at
}

// Whether the entry at a place is in range, as far as it stands.
fn is_in_range(b: &[u8], at: usize) -> bool
    requires { (at < length b.now) × (length b.now ≤ max_index) }
    ensures { result ≡ entry_ranges b.now at }
{
    let count = number_so_far(b, at, 2) as usize;
    if !(1..=MAX_NAME).contains(&count) {
        return false;
    }
    is_named(b, at + 2, count) && number_so_far(b, at + 2 + count, 4) < MAX_LENGTH
}

// Whether so many bytes from a place on are those of a name, as far as they stand.
fn is_named(b: &[u8], from: usize, count: usize) -> bool
    ensures { result ≡ each (in_range min_byte max_byte) (take count (drop from b.now)) }
{
    let rest = b.get(from..).unwrap_or(&[]);
    are_visible(&rest[..count.min(rest.len())])
}

// Whether each byte is one of a name's.
fn are_visible(bytes: &[u8]) -> bool
    ensures { result ≡ each (in_range min_byte max_byte) bytes.now }
{
    bytes
        .iter()
        .all(|&byte| MIN_BYTE <= byte && byte <= MAX_BYTE)
}

// The number in the w bytes at a place, as far as they stand.
fn number_so_far(b: &[u8], at: usize, w: usize) -> u64
    requires { w ≤ 8 }
    ensures { result ≡ number_at w at b.now }
{
    let stands = b.len().saturating_sub(at);
    number_in(b, at, w.min(stands))
}
