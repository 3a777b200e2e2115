// Places among the arguments: how many words stand from one on, and the one behind it; and the first bytes of a buffer.
// Nothing is asked of the numbers.
ghost use Rattle.std.specs.Prelude.{◌≡◌, take};

use crate::system::arg_count;

// How many words stand from a place on.
pub fn words_from(rt: &HostRuntime, at: usize) -> usize {
    arg_count(rt).saturating_sub(at)
}

// The place so many words behind another.
pub fn behind(at: usize, words: usize) -> usize {
    at.wrapping_add(words)
}

// The first bytes of a buffer, never more than there are.
pub fn inside(n: usize, buffer: &[u8]) -> &[u8]
    ensures { result.now ≡ take n buffer.now }
{
    &buffer[..n.min(buffer.len())]
}
