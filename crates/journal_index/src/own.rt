// Refusal 14: whether a buffer begins with the index of records. The last record of each name is found by one pass over them, in the order of names;
// the buffer must be an index with the entries of these.
ghost use Rattle.std.specs.Prelude.{◌≡◌};
ghost use Rattle.journal_spec.specs.Index.{index_bytes, in_front};
ghost use Rattle.journal_spec.specs.CheckIndex.{check_index_of};
ghost use Rattle.journal_spec.proofs.Whole.{WholeBytes};
ghost use Rattle.journal_entries.specs.Entries.{entries_in};
ghost use Rattle.journal_index.specs.Standing.{index_in};
ghost use Rattle.journal_index.specs.Places.{entries_of, same_entries};
ghost use Rattle.journal_index.specs.Checked.{check_meaning};

use crate::IndexError;
use crate::make::name_at;
use journal::{Rule, contents_of};
use journal_entries::{entry_at, is_index};
use journal_order::{Key, Keyed, MOST};
use journal_parts::number_in;
use refusals::Refusal;

// Whether a buffer begins with the index of the journal of a length in a slice.
pub fn check_index(v: &[u8], len: usize, index: &[u8]) -> Result<(), IndexError>
    ensures { check_meaning result ≡ check_index_of (record { slice = v.now; len = len }) index.now }
{
    match contents_of(v, len, 0, Rule::Plain) {
        Ok(contents) => {
            if !is_own(&v[..contents.committed], index) {
                return Err(IndexError::Declined(Refusal::Index));
            }
            Ok(())
        }
        Err(fault) => Err(IndexError::Damaged(fault)),
    }
}

// Whether the index of the records in b is in front of a buffer.
pub(crate) fn is_own(b: &[u8], index: &[u8]) -> bool
    requires { WholeBytes b.now }
    ensures { result ≡ in_front (index_bytes (index_in b.now)) index.now }
{
    if !is_index(index) {
        return false;
    }
    let mut places: [u16; MOST] = [0; MOST];
    let named = Keyed {
        bytes: b,
        key: Key::Name,
    };
    let count = named.latest_of(&mut places);
    has_entries(b, &places[..count], index)
}

// Whether an index has the entries of the records at the places, and no others.
fn has_entries(b: &[u8], places: &[u16], index: &[u8]) -> bool
    ensures { result ≡ same_entries (entries_in index.now) (entries_of b.now places.now) }
{
    let mut left = number_in(index, 0, 2);
    let mut place: usize = 2;
    for &at in places {
        if left == 0 {
            return false;
        }
        let Some(entry) = entry_at(index, place) else {
            return false;
        };
        if !entry.is_entry(name_at(b, at), usize::from(at)) {
            return false;
        }
        place += entry.size();
        left -= 1;
    }
    left == 0 || entry_at(index, place).is_none()
}
