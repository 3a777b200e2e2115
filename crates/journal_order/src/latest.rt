// The last place of each key, sorted: a place is put in its key's position, or in place of the one that has its key.
ghost use Rattle.std.specs.Prelude.{◌≡◌, ◌+◌, ◌≤◌, ◌<◌, [], ◌∷◌, ◌++◌, length, take};
ghost use Rattle.journal_spec.proofs.Whole.{WholeBytes};
ghost use Rattle.journal_order.specs.Starts.{starts_in, most_records};
ghost use Rattle.journal_order.specs.Keys.{key_at};
ghost use Rattle.journal_order.specs.Sorted.{Climbs, LatestOf};

use crate::keys::Keyed;
use crate::putting::insert;
use journal_parts::record_size;

impl Keyed<'_> {
    // Enters a place among the first `count` of an array, and answers how many there are then. The array is lent with its count beside it: there is
    // no heap here, and memory is fixed.
    fn enter(&self, places: &mut [u16], count: usize, place: u16) -> usize
        requires { (count < length places.old) × Climbs (key_at self.now.key self.now.bytes.now) (take count places.old) }
        ensures latest_of { LatestOf (key_at self.now.key self.now.bytes.now)
            (take count places.old ++ place ∷ [])
            (take result places.new) }
        ensures upper_bound { (result ≤ count + 1) × (length places.new ≡ length places.old) }
    {
        let key = self.key_at(usize::from(place));
        let n = self.upto(&places[..count], key);
        if self.ends_with(places, n, key) {
            places[n - 1] = place;
            return count;
        }
        insert(places, n, count, place);
        count + 1
    }

    // The last place of each key among a whole journal's records, sorted. Answers how many there are.
    pub fn latest_of(&self, places: &mut [u16]) -> usize
        requires { WholeBytes self.now.bytes.now × (most_records ≤ length places.old) }
        ensures latest_of { LatestOf (key_at self.now.key self.now.bytes.now) (starts_in self.now.bytes.now) (take result places.new) }
        ensures upper_bound { (result ≤ length places.old) × (length places.new ≡ length places.old) }
    {
        let mut count: usize = 0;
        let mut at: usize = 0;
        while at < self.bytes.len() {
            count = self.enter(places, count, at as u16);
            at += record_size(&self.bytes[at..]);
        }
        count
    }
}
