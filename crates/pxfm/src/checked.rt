// The functions whose argument has a range, for every argument: a pair of NaN outside of it.
// The comparison with the Rust calls these; the quantile calls the functions themselves, inside their range.
ghost use Rattle.std.specs.Prelude.{◌≡◌};
ghost use Rattle.pxfm.specs.DoubleDouble.{nan_pair};
ghost use Rattle.pxfm.specs.Checked.{positive_finite, checked_log_dd, checked_log_dTo_dd, checked_erf_core};

use crate::double_double::DoubleDouble;
use crate::err::inverfc;
use crate::logs::fast_log_dd;

fn positive_finite(x: f64) -> bool
    ensures { result ≡ positive_finite x }
{
    if x.is_nan() {
        return false;
    }
    let b = x.to_bits();
    0 < b && b < 0x7ff0000000000000
}

pub(crate) fn nan_pair() -> DoubleDouble
    ensures { result ≡ nan_pair }
{
    DoubleDouble::new(f64::NAN, f64::NAN)
}

pub(crate) fn log_dd(x: DoubleDouble) -> DoubleDouble
    ensures { result ≡ checked_log_dd x }
{
    if positive_finite(x.hi) {
        return fast_log_dd::fast_log_dd(x);
    }
    nan_pair()
}

pub(crate) fn log_d_to_dd(x: f64) -> DoubleDouble
    ensures { result ≡ checked_log_dTo_dd x }
{
    if positive_finite(x) {
        return fast_log_dd::fast_log_d_to_dd(x);
    }
    nan_pair()
}

pub(crate) fn core(x: DoubleDouble) -> DoubleDouble
    ensures { result ≡ checked_erf_core x }
{
    if x.hi < 1.0 {
        return inverfc::erf_core(x);
    }
    nan_pair()
}
