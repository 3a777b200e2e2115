// Both logarithms of a positive finite argument, by a table and a polynomial (the Rust's src/logs/fast_log_dd.rs).
// The two share their reduction, `log_parts`. Each function equals its definition in specs/FastLogDd.antt.
ghost use Rattle.std.specs.Prelude.{◌≡◌, ◌^◌, ◌<◌, ◌≤◌, to_bits};
ghost use Rattle.std.specs.Float.{binary64};
ghost use Rattle.pxfm.specs.FastLogDd.{scaled_of, Normal, index_of, factor_of, carry_of, reduced_of, exponent_of};
ghost use Rattle.pxfm.specs.FastLogDd.{parts_of, fast_log_dTo_dd, log_lo, fast_log_dd};

use crate::double_double::DoubleDouble;
use crate::{common, pow_exec};

// The weight of a significand's leading bit.
const UNIT: u64 = 0x10000000000000;

// The least significand that stands for the root of 2 or more: from there on t is halved.
const ROOT_TWO: u64 = 0x16a09e667f3bcd;

// A significand of 53 bits and an exponent with 1074 added.
#[derive(Clone, Copy)]
pub(crate) struct Scaled {
    pub(crate) m: u64,
    pub(crate) e: u32,
}

// What both logarithms have in common: z is r × t - 1, and v is e × log 2 - log r + z.
#[derive(Clone, Copy)]
pub(crate) struct Parts {
    pub(crate) v: DoubleDouble,
    pub(crate) z: f64,
}

// The significand and the exponent of the double with bit pattern b. A subnormal is shifted up.
fn scale(b: u64) -> Scaled
    requires b_nonzero { 0 < b }
    requires b_bound { b < 0x7ff0_0000_0000_0000 }
    ensures { (result ≡ scaled_of b) × Normal result }
{
    let e = b >> 52;
    if e == 0 {
        let k = b.leading_zeros() - 11;
        return Scaled {
            m: b << k,
            e: 52 - k,
        };
    }
    Scaled {
        m: b % UNIT + UNIT,
        e: e as u32 + 51,
    }
}

// The place in both tables.
fn index(m: u64) -> usize
    requires bound { 2 ^ 52 ≤ m }
    requires m_bound { m < 2 ^ 53 }
    ensures { (result ≡ index_of m) × (result < 182) }
{
    if m >= ROOT_TWO {
        (m >> 45) as usize - 181
    } else {
        (m >> 44) as usize - 181
    }
}

// The Rust's CY: what the significand is multiplied by.
fn factor(m: u64) -> f64
    ensures { result ≡ factor_of m }
{
    if m >= ROOT_TWO { 0.5 } else { 1.0 }
}

// The Rust's c: what the exponent is raised by.
fn carry(m: u64) -> u32
    ensures { (result ≡ carry_of m) × (result ≤ 1) }
{
    if m >= ROOT_TWO { 1 } else { 0 }
}

// The significand as a double, halved from the root of 2 on.
fn reduced(m: u64) -> f64
    requires bound { 2 ^ 52 ≤ m }
    requires m_bound { m < 2 ^ 53 }
    ensures { result ≡ reduced_of m }
{
    f64::from_bits(m % UNIT + 0x3ff0000000000000) * factor(m)
}

// The exponent as a double, one more where the significand is halved.
fn exponent(m: u64, e: u32) -> f64
    requires { e ≤ 2097 }
    ensures { result ≡ exponent_of m e }
{
    let be = e.wrapping_add(carry(m));
    be as f64 - 1074.0
}

// The reduction that both share. Each then calls the polynomial at z itself, as in the Rust: with one caller it would be inlined
// and vectorised, which takes longer (docs/DECISIONS.md 12).
fn log_parts(x: f64) -> Parts
    requires x_nonzero { 0 < to_bits binary64 x }
    requires x_bound { to_bits binary64 x < 0x7ff0_0000_0000_0000 }
    ensures { result ≡ parts_of x }
{
    let s = scale(x.to_bits());
    let m = s.m;
    let i = index(m);
    let row = log_tables::row_at(i);
    let r = f64::from_bits(row.0);
    let z = common::dd_fmla(r, reduced(m), -1.0);
    let be = exponent(m, s.e);
    let log_r = DoubleDouble::new(f64::from_bits(row.1), f64::from_bits(row.2));
    let dt = DoubleDouble::mul_f64_add(DoubleDouble::LOG2_DD, be, log_r);
    let v = DoubleDouble::f64_add(dt.hi, DoubleDouble::new(dt.lo, z));
    Parts { v, z }
}

// The low part over the high part; 0 where the quotient could underflow without need.
fn log_lo(ddx: DoubleDouble) -> f64
    ensures { result ≡ log_lo ddx }
{
    if ddx.hi <= f64::from_bits(0x7fd0000000000000) || ddx.lo >= 4.0 || ddx.lo <= -4.0 {
        ddx.lo / ddx.hi
    } else {
        0.0
    }
}

// The logarithm of a pair.
pub(crate) fn fast_log_dd(ddx: DoubleDouble) -> DoubleDouble
    requires hi_nonzero { 0 < to_bits binary64 ddx.hi }
    requires hi_bound { to_bits binary64 ddx.hi < 0x7ff0_0000_0000_0000 }
    ensures { result ≡ fast_log_dd ddx }
{
    let l = log_lo(ddx);
    let s = log_parts(ddx.hi);
    let p = pow_exec::log_poly_1(s.z);
    DoubleDouble::f64_add(s.v.hi, DoubleDouble::new(s.v.lo + p.lo + l, p.hi))
}

// The logarithm of a double.
pub(crate) fn fast_log_d_to_dd(ddx: f64) -> DoubleDouble
    requires ddx_nonzero { 0 < to_bits binary64 ddx }
    requires ddx_bound { to_bits binary64 ddx < 0x7ff0_0000_0000_0000 }
    ensures { result ≡ fast_log_dTo_dd ddx }
{
    let s = log_parts(ddx);
    let p = pow_exec::log_poly_1(s.z);
    let w = DoubleDouble::f64_add(s.v.hi, DoubleDouble::new(s.v.lo + p.lo, p.hi));
    DoubleDouble::from_exact_add(w.hi, w.lo)
}
