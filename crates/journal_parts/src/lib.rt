// A record by its counts: a number in bytes, where the sections of the record at a place stand, and of the one at a slice's front its size and its
// name. Nothing is judged and nothing is assumed of the bytes: what does not stand in the slice is 0 or empty.
#![tactic(auto)]

ghost use Rattle.std.specs.Prelude.{◌≡◌};
ghost use Rattle.journal_parts.specs.Front.{record_size, record_name};

use crate::spans::name_at;

mod number;
mod spans;

pub use number::{number_at, number_in};
pub use spans::{Sections, Span, Spans, part_of, spans_at};

// The number of bytes of the record at the front.
#[tactic(auto, unfolding(crate::specs::Front::record_size))]
pub fn record_size(b: &[u8]) -> usize
    ensures { result ≡ record_size b.now }
{
    let last = spans_at(b, 0).limits;
    last.map_or(0, |s| s.next)
}

// The name's bytes.
#[tactic(auto, unfolding(crate::specs::Front::record_name))]
pub fn record_name<'a>(b: &'a [u8]) -> &'a [u8]
    ensures { result.now ≡ record_name b.now }
{
    part_of(b, name_at(b, 0))
}
