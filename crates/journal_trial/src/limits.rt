// The limits of all records of an index in one table, eight to a position, so that a link is held to them without looking for its record again.
// Where a record has fewer, a NaN stands, which no ticks exceed.
ghost use Rattle.std.specs.Prelude.{◌≡◌, ℕ, ◌+◌, ◌*◌, ◌<◌, ◌≤◌, length, slice_index};
ghost use Rattle.journal_entries.specs.Entries.{start_in};
ghost use Rattle.journal_trial.specs.Counting.{over_at};
ghost use Rattle.journal_trial.specs.Together.{over_bits, limit_bytes, LimitsOf, LimitsPut};

use crate::positions::start_at;
use journal_parts::{number_in, part_of, spans_at};

// The limits of a position, and the pattern that stands for none.
const MAX_LIMITS: usize = 8;

const NONE: u64 = 0x7ff8_0000_0000_0000;

// The limits of the records whose entries stand at some places of the index.
pub(crate) fn read_limits(v: &[u8], index: &[u8], places: &[usize], limits: &mut [u64])
    requires { 8 * length places.now ≤ length limits.old }
    ensures { LimitsOf limits.new (λ k. limit_bytes v.now (start_in index.now (slice_index places.now k)))
        (length places.now) }
{
    for (k, place) in places.iter().enumerate() {
        put_limits(limits, k, limits_of(v, start_at(index, *place)));
    }
}

// Puts those of a position.
fn put_limits(limits: &mut [u64], k: usize, bytes: &[u8])
    requires { 8 * k + 8 ≤ length limits.old }
    ensures { LimitsPut limits.old k bytes.now limits.new 8 }
{
    for j in 0..MAX_LIMITS {
        limits[MAX_LIMITS * k + j] = limit_at(bytes, j);
    }
}

// The bits of a limit, or of a NaN where there is none.
fn limit_at(bytes: &[u8], j: usize) -> u64
    requires { j < 8 }
    ensures { (ticks : ℕ) → over_bits result ticks ≡ over_at bytes.now j ticks }
{
    if bytes.len() < 8 * j + 8 {
        return NONE;
    }
    number_in(bytes, 8 * j, 8)
}

// The bytes of the limits of the record at a place.
fn limits_of<'a>(v: &'a [u8], at: usize) -> &'a [u8]
    ensures { result.now ≡ limit_bytes v.now at }
{
    part_of(v, spans_at(v, at).limits)
}
