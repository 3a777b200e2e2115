// Mean and spread of a record's times, for its line and for a planner's: the times are copied out of the bytes and summed.
// More times than a record may have are not copied; they have no mean and spread, as no times have none.
ghost use Rattle.std.specs.Prelude.{◌≡◌, cond, ◌+◌, ◌*◌, ◌≤◌, leb, length, take};
ghost use Rattle.limit.specs.Times.{max_count};
ghost use Rattle.limit.specs.Answer.{moments_meaning};
ghost use Rattle.limit.specs.Limit.{moments_of_times};
ghost use Rattle.journal_spec.specs.Bytes.{number_at, numbers_in};
ghost use Rattle.journal_listing.specs.Listing.{mean_bits, spread_bits};
ghost use Rattle.journal_listing.specs.MomentsIn.{moments_in};
ghost use Rattle.journal_parts.specs.Spans.{Inside, numbers_of};

use journal_parts::{Span, number_at, number_in, spans_at};
use limit::Moments;
use refusals::Refusal;

// The most times of a record.
const MAX_TIMES: usize = 128;

// Mean and spread of the record that stands at a place, whatever the bytes are; refused as no times are where none does.
pub fn moments_in(b: &[u8], at: usize) -> Result<Moments, Refusal>
    ensures { moments_meaning result ≡ moments_in at b.now }
{
    let Some(s) = spans_at(b, at).all() else {
        return Err(Refusal::Times);
    };
    moments_at(b, at, s.times)
}

// Mean and spread of the times of the record at a place.
pub(crate) fn moments_at(b: &[u8], at: usize, times: Span) -> Result<Moments, Refusal>
    requires { (at + 4 ≤ length b.now) × Inside 4 times b.now }
    ensures { moments_meaning result ≡ moments_of_times (number_at 2 at b.now) (numbers_of 4 times b.now) }
{
    let mut ticks = [0u32; MAX_TIMES];
    let n = copied(times.count);
    copy_times(b, times.first, &mut ticks[..n]);
    let form = number_in(b, at, 2);
    limit::moments_of_times(form, &ticks[..n])
}

// How many of so many times are copied.
fn copied(count: usize) -> usize
    ensures value { result ≡ cond (leb count max_count) count 0 }
    ensures few { (result ≤ count) × (result ≤ max_count) }
{
    if count <= MAX_TIMES { count } else { 0 }
}

// Fills `ticks` with the times that stand from a place on.
fn copy_times(b: &[u8], first: usize, ticks: &mut [u32])
    requires { first + length ticks.old * 4 ≤ length b.now }
    ensures { ticks.new ≡ numbers_in 4 (length ticks.old) first b.now }
{
    for (i, tick) in ticks.iter_mut().enumerate() {
        *tick = number_at(b, first + i * 4, 4) as u32;
    }
}

// The bits of the mean, 0 where there is none.
pub fn mean_bits(worked: Result<Moments, Refusal>) -> u64
    ensures { result ≡ mean_bits (moments_meaning worked) }
{
    match worked {
        Ok(m) => double_bits::bits_of(m.mean),
        Err(_) => 0,
    }
}

// The bits of the spread, 0 where there is none.
pub fn spread_bits(worked: Result<Moments, Refusal>) -> u64
    ensures { result ≡ spread_bits (moments_meaning worked) }
{
    match worked {
        Ok(m) => double_bits::bits_of(m.spread),
        Err(_) => 0,
    }
}
