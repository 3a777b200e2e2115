// The sums of a set of times: how many there are, their sum and the sum of their squares.
// They are kept by value, so that a reader of times can take in one time after another.
ghost use Rattle.std.specs.Prelude.{◌≡◌};
ghost use Rattle.limit.specs.Times.{time_in_range};
ghost use Rattle.limit.specs.Sums.{add_time, gather_of, gathered_meaning, is_plausible, no_times};

use crate::ranges::in_range;
use refusals::Refusal;

// The least and the greatest time, in ticks of ten microseconds.
pub const MIN_TICKS: u64 = 1;

pub const MAX_TICKS: u64 = 1_048_575;

// The least and the greatest number of times.
pub const MIN_COUNT: u64 = 2;

pub const MAX_COUNT: u64 = 128;

// Document 01's n, S and sum of squares.
#[derive(Clone, Copy)]
pub struct Sums {
    pub count: u64,
    pub sum: u64,
    pub squares: u64,
}

impl Sums {
    // The sums of no times.
    pub fn new() -> Sums
        ensures { result ≡ no_times }
    {
        Sums {
            count: 0,
            sum: 0,
            squares: 0,
        }
    }

    // The sums with one more time. What would pass the largest u64 stays there, and the sums are then not plausible.
    pub fn add(self, t: u32) -> Sums
        ensures { result ≡ add_time self t }
    {
        let ticks = t as u64;
        Sums {
            count: self.count.saturating_add(1),
            sum: self.sum.saturating_add(ticks),
            squares: self.squares.saturating_add(ticks * ticks),
        }
    }

    // Whether these meet the bounds that the sums of 2 to 128 times in range meet; some that do belong to no times.
    // Each test bounds the numbers that the next one multiplies.
    pub(crate) fn is_plausible(self) -> bool
        ensures { result ≡ is_plausible self }
    {
        let Sums {
            count: n,
            sum: s,
            squares: q,
        } = self;
        in_range(MIN_COUNT, MAX_COUNT, n)
            && in_range(n * MIN_TICKS, n * MAX_TICKS, s)
            && q <= MAX_TICKS * s
            && s * s <= n * q
    }
}

fn time_in_range(t: u32) -> bool
    ensures { result ≡ time_in_range t }
{
    in_range(MIN_TICKS, MAX_TICKS, t as u64)
}

// The sums of the times, in one pass that ends at the first time out of range. A count out of range is seen before the pass.
pub fn gather(times: &[u32]) -> Result<Sums, Refusal>
    ensures { gathered_meaning result ≡ gather_of times.now }
{
    if !in_range(MIN_COUNT, MAX_COUNT, times.len() as u64) {
        return Err(Refusal::Times);
    }
    let mut s = Sums::new();
    for t in times {
        if !time_in_range(*t) {
            return Err(Refusal::Times);
        }
        s = s.add(*t);
    }
    Ok(s)
}
