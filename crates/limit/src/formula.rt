// The limit's formula in doubles, one function for each of document 01's named values.
// Every whole number here is at most 2^53, so that each cast to f64 is exact.
ghost use Rattle.std.specs.Prelude.{true, ◌≡◌, ◌^◌, ◌≤◌};
ghost use Rattle.limit.specs.Times.{min_count, max_count};
ghost use Rattle.limit.specs.Forms.{form_number};
ghost use Rattle.limit.specs.Formula.{divisor_of, figures_from, limit_from, mean_of, moments_of, quantile_of, spread_by};
ghost use Rattle.limit.specs.Sums.{is_plausible};

use crate::forms::Form;
use crate::sums::Sums;
use crate::{Figures, Moments};

// A chance of c in a million beyond the limit is c / 500000 in the two tails together, which is what f_erfcinv takes.
const HALF_MILLION: f64 = 500000.0;

// The double nearest to the root of 2.
const ROOT_TWO: f64 = 1.4142135623730951;

impl Sums {
    // Mean and spread under a form of times with these sums.
    pub(crate) fn moments(self, form: Form) -> Moments
        requires { is_plausible self ≡ true }
        ensures { result ≡ moments_of (form_number form) self.count self.sum self.squares }
    {
        let Sums {
            count,
            sum,
            squares,
        } = self;
        let d = count * squares - sum * sum;
        let mean = mean_of(count, sum);
        let spread = spread_by(form.divisor_of(count), d);
        Moments { mean, spread }
    }
}

impl Moments {
    // The four figures from mean, spread and quantile.
    pub(crate) fn figures(self, quantile: f64) -> Figures
        ensures { result ≡ figures_from self quantile }
    {
        let Moments { mean, spread } = self;
        let limit = limit_from(mean, spread, quantile);
        Figures {
            mean,
            spread,
            quantile,
            limit,
        }
    }
}

impl Form {
    // What D is divided by under the form.
    fn divisor_of(self, n: u64) -> u64
        requires { (min_count ≤ n) × (n ≤ max_count) }
        ensures { result ≡ divisor_of (form_number self) n }
    {
        match self {
            Form::Plain => n * n,
            Form::Sample => n * (n - 1),
        }
    }
}

fn mean_of(n: u64, sum: u64) -> f64
    requires { (n ≤ 2 ^ 53) × (sum ≤ 2 ^ 53) }
    ensures { result ≡ mean_of n sum }
{
    sum as f64 / n as f64
}

fn spread_by(divisor: u64, d: u64) -> f64
    requires { (divisor ≤ 2 ^ 53) × (d ≤ 2 ^ 53) }
    ensures { result ≡ spread_by divisor d }
{
    sqrt::sqrt(d as f64 / divisor as f64)
}

// The quantile of a chance in a million.
pub fn quantile_of(chance: u32) -> f64
    ensures { result ≡ quantile_of chance }
{
    pxfm::err::inverfc::f_erfcinv(chance as f64 / HALF_MILLION)
}

// The products go from the left: first the spread times the root of 2, then times the quantile.
fn limit_from(mean: f64, spread: f64, e: f64) -> f64
    ensures { result ≡ limit_from mean spread e }
{
    mean + (spread * ROOT_TWO) * e
}
