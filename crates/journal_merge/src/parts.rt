// What is read of the record at a place: its day, and its bytes, whose number comes from its counts, as crate journal_parts reads them.
// There is a record.
ghost use Rattle.std.specs.Prelude.{◌≡◌, take, drop};
ghost use Rattle.journal_parts.specs.Spans.{day_at};
ghost use Rattle.journal_parts.specs.Front.{record_size};
ghost use Rattle.journal_merge.specs.Records.{AtRecord};

use journal_parts::{number_in, record_size};

// The day of the record at a place.
pub(crate) fn day_at(b: &[u8], at: usize) -> u64
    requires { AtRecord b.now at }
    ensures { result ≡ day_at b.now at }
{
    number_in(b, at + 2, 2)
}

// Its bytes.
pub(crate) fn record_at<'a>(b: &'a [u8], at: usize) -> &'a [u8]
    requires { AtRecord b.now at }
    ensures { result.now ≡ take (record_size (drop at b.now)) (drop at b.now) }
{
    let rest = &b[at..];
    &rest[..record_size(rest)]
}
