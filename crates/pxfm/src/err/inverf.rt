// The inverse error function of document 02 (2026-11), of every double, over `erf_core` of inverfc.
// The Rust's function of this name has other steps (docs/DIFFERENCES.md); each function here equals its definition in specs/Inverf.antt.
ghost use Rattle.std.specs.Prelude.{◌≡◌};
ghost use Rattle.pxfm.specs.Inverf.{with_sign, f_erfinv, f_erfinv_bits};

use crate::err::inverfc;

// The size of x, with the sign minus or plus.
fn with_sign(minus: bool, x: f64) -> f64
    ensures { result ≡ with_sign minus x }
{
    let a = x.abs();
    if minus { -a } else { a }
}

// The inverse error function of every double. A NaN passes no test.
pub fn f_erfinv(x: f64) -> f64
    ensures { result ≡ f_erfinv x }
{
    if x == 0.0 {
        return x;
    }
    let minus = x < 0.0;
    let a = x.abs();
    if a == 1.0 {
        return with_sign(minus, f64::INFINITY);
    }
    if a < 1.0 {
        return with_sign(minus, inverfc::erf_core_of(0.0, a));
    }
    f64::NAN
}

// The same over bit patterns, all of them.
pub fn f_erfinv_bits(b: u64) -> u64
    ensures { result ≡ f_erfinv_bits b }
{
    let x = double_bits::of_bits(b);
    double_bits::bits_of(f_erfinv(x))
}
