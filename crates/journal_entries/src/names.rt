// The order of two names: byte by byte, and a name that begins another comes first.
ghost use Rattle.std.specs.Prelude.{◌≡◌};
ghost use Rattle.journal_spec.specs.Index.{order_of};
ghost use Rattle.journal_entries.specs.Answers.{order_meaning};

use std::cmp::Ordering;

// How the first of two names stands to the second.
pub fn order_of(a: &[u8], b: &[u8]) -> Ordering
    ensures { order_meaning result ≡ order_of a.now b.now }
{
    a.cmp(b)
}
