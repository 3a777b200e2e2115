// The band's formula in doubles, over mean and spread, which the limit works out.
// A share is at most 2^32, so that its cast to f64 is exact.
ghost use Rattle.std.specs.Prelude.{◌≡◌};
ghost use Rattle.band.specs.Band.{ends_from, inverse_of};

use crate::Ends;
use limit::Moments;

// A share of w in a million is w / 1000000, which is what f_erfinv takes.
const MILLION: f64 = 1000000.0;

// The double nearest to the root of 2.
const ROOT_TWO: f64 = 1.4142135623730951;

// The ends around a mean, at a share in a million.
pub(crate) fn ends_at(m: Moments, share: u32) -> Ends
    ensures { result ≡ ends_from m.mean m.spread (inverse_of share) }
{
    ends_from(m.mean, m.spread, inverse(share))
}

fn inverse(share: u32) -> f64
    ensures { result ≡ inverse_of share }
{
    pxfm::err::inverf::f_erfinv(share as f64 / MILLION)
}

// The products go from the left: first the spread times the root of 2, then times the inverse error function.
fn ends_from(mean: f64, spread: f64, e: f64) -> Ends
    ensures { result ≡ ends_from mean spread e }
{
    let half = (spread * ROOT_TWO) * e;
    Ends {
        low: mean - half,
        high: mean + half,
    }
}
