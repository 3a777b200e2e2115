// Bytes of a line put into the buffer.
// The digits stand as the bytes do: the first two digits are the first byte.
ghost use Rattle.std.specs.Prelude.{◌≡◌};
ghost use Rattle.replay_cases.specs.Store.{stored_at, stored_by};

use crate::line::Case;

// The buffer with the bytes that a line puts there; without room for them, or for another line, it stays.
#[tactic(auto, unfolding(crate::specs::Store::stored_by))]
pub(crate) fn store(a: Option<Case>, v: &mut [u8])
    ensures { v.new ≡ stored_by a v.old }
{
    if let Some(Case::Bytes { place, n }) = a {
        store_at(place, n, v);
    }
}

// Eight bytes from a place on, where there is room for them.
fn store_at(place: usize, n: u64, v: &mut [u8])
    ensures { v.new ≡ stored_at place n v.old }
{
    if 8 <= v.len() && place <= v.len() - 8 {
        v[place..place + 8].copy_from_slice(&n.to_be_bytes());
    }
}
