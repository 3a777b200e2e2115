// Products with a sum after them: what the Rust's src/common.rs has of them where the processor has no fma.
// Each function equals its definition in specs/Common.antt.
ghost use Rattle.std.specs.Prelude.{◌≡◌};
ghost use Rattle.pxfm.specs.Common.{f_fmla, dd_fmla};

use crate::double_double::DoubleDouble;

// a × b + c in two roundings.
pub(crate) fn f_fmla(a: f64, b: f64, c: f64) -> f64
    ensures { result ≡ f_fmla a b c }
{
    a * b + c
}

// a × b + c by the product's pair.
pub(crate) fn dd_fmla(a: f64, b: f64, c: f64) -> f64
    ensures { result ≡ dd_fmla a b c }
{
    DoubleDouble::dd_f64_mul_add(a, b, c)
}
