// A key looked for among sorted places by halving.
ghost use Rattle.std.specs.Prelude.{◌≡◌, ◌≤◌, length};
ghost use Rattle.journal_order.specs.Keys.{key_at};
ghost use Rattle.journal_order.specs.Sorted.{Rises, Split, EndsWith, last_having, place_meaning};

use crate::keys::Keyed;
use journal_entries::is_below;

impl Keyed<'_> {
    // The last of the places that have the key.
    pub fn look_up(&self, places: &[u16], key: &[u8]) -> Option<usize>
        requires { Rises (key_at self.now.key self.now.bytes.now) places.now }
        ensures { place_meaning result ≡ last_having (key_at self.now.key self.now.bytes.now) key.now places.now }
    {
        let n = self.upto(places, key);
        if !self.ends_with(places, n, key) {
            return None;
        }
        Some(usize::from(places[n - 1]))
    }

    // Whether there is a last one of the first n places, and its key does not come before the one looked for.
    pub(crate) fn ends_with(&self, places: &[u16], n: usize, key: &[u8]) -> bool
        requires { n ≤ length places.now }
        ensures { EndsWith (key_at self.now.key self.now.bytes.now) key.now places.now n result }
    {
        if n == 0 {
            return false;
        }
        !is_below(self.key_at(usize::from(places[n - 1])), key)
    }

    // How many places have a key that does not come after the one looked for.
    pub(crate) fn upto(&self, places: &[u16], key: &[u8]) -> usize
        requires { Rises (key_at self.now.key self.now.bytes.now) places.now }
        ensures { Split (key_at self.now.key self.now.bytes.now) key.now places.now result }
    {
        places.partition_point(|&place| !is_below(key, self.key_at(usize::from(place))))
    }
}
