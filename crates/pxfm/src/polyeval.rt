// Polynomials over doubles by Horner's rule (the Rust's src/polyeval.rs; its trait PolyevalMla is a plain function: doubles alone are called for).
// Each function equals its definition in specs/Polyeval.antt.
ghost use Rattle.std.specs.Prelude.{◌≡◌};
ghost use Rattle.pxfm.specs.Common.{f_fmla};
ghost use Rattle.pxfm.specs.Polyeval.{f_polyeval4, f_polyeval5};

use crate::common;

fn polyeval_mla(a: f64, b: f64, c: f64) -> f64
    ensures { result ≡ f_fmla a b c }
{
    common::f_fmla(a, b, c)
}

pub(crate) fn f_polyeval4(x: f64, a0: f64, a1: f64, a2: f64, a3: f64) -> f64
    ensures { result ≡ f_polyeval4 x a0 a1 a2 a3 }
{
    let t2 = polyeval_mla(x, a3, a2);
    let t5 = polyeval_mla(x, t2, a1);
    polyeval_mla(x, t5, a0)
}

pub(crate) fn f_polyeval5(x: f64, a0: f64, a1: f64, a2: f64, a3: f64, a4: f64) -> f64
    ensures { result ≡ f_polyeval5 x a0 a1 a2 a3 a4 }
{
    let mut acc = a4;
    acc = polyeval_mla(x, acc, a3);
    acc = polyeval_mla(x, acc, a2);
    acc = polyeval_mla(x, acc, a1);
    polyeval_mla(x, acc, a0)
}
