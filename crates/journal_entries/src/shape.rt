// Whether an index stands at a buffer's front: as many entries as its count says, with names that rise strictly.
// Which records it is of is not judged here.
ghost use Rattle.std.specs.Prelude.{◌≡◌};
ghost use Rattle.journal_entries.specs.Shape.{is_below, is_index};

use crate::names::order_of;
use crate::walking::entry_at;
use journal_parts::number_in;

// Whether a buffer begins with an index.
pub fn is_index(b: &[u8]) -> bool
    ensures { result ≡ is_index b.now }
{
    if b.len() < 2 {
        return false;
    }
    let mut low = &b[..0];
    let mut at: usize = 2;
    for _ in 0..number_in(b, 0, 2) {
        let Some(entry) = entry_at(b, at) else {
            return false;
        };
        if !is_below(low, entry.name) {
            return false;
        }
        low = entry.name;
        at += entry.size();
    }
    true
}

// Whether a name comes before another.
pub fn is_below(low: &[u8], name: &[u8]) -> bool
    ensures { result ≡ is_below low.now name.now }
{
    order_of(low, name).is_lt()
}
