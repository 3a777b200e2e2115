// A place put among the first ones of an array: those behind it move up by one.
ghost use Rattle.std.specs.Prelude.{◌≡◌, ◌+◌, ◌-◌, ◌≤◌, ◌<◌, length, take, drop};
ghost use Rattle.journal_spec.specs.Append.{written};
ghost use Rattle.journal_order.specs.Sorted.{Inserted};

// Puts a place at n among the first i.
pub(crate) fn insert(places: &mut [u16], n: usize, i: usize, place: u16)
    requires { (n ≤ i) × (i < length places.old) }
    ensures { Inserted n i place places.old places.new }
{
    shift(places, n, i);
    places[n] = place;
}

// Moves the places between two positions up by one, the last one first. A loop: `copy_within` has the archive for C ask for memmove.
fn shift(places: &mut [u16], from: usize, to: usize)
    requires { (from ≤ to) × (to + 1 ≤ length places.old) }
    ensures { places.new ≡ written places.old (from + 1) (take (to - from) (drop from places.old)) }
{
    for i in (from..to).rev() {
        places[i + 1] = places[i];
    }
}
