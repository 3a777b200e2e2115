// A pair of doubles, low part and high part, and the arithmetic on it that f_erfcinv uses (the Rust's src/double_double.rs).
// Each function takes the Rust's steps in the Rust's order and equals its definition in specs/DoubleDouble.antt.
ghost use Rattle.std.specs.Prelude.{◌≡◌, not, T};
ghost use Rattle.std.specs.Float.{binary64};
ghost use Rattle.std.specs.Float.Ieee.{nan_bits};
ghost use Rattle.pxfm.specs.DoubleDouble.{new_of, from_bit_pair, split_of, from_exact_mult, from_exact_add, from_full_exact_add};
ghost use Rattle.pxfm.specs.DoubleDouble.{from_full_exact_sub, fast_sqrt, mul_add_f64, recip_of, div_of, mul_f64_add, mul_add};
ghost use Rattle.pxfm.specs.DoubleDouble.{quick_mult, quick_mult_f64, full_add_f64, f64_add, to_f64, dd_f64_mul_add, neg_of};

use std::ops::{Mul, Neg};

#[derive(Clone, Copy)]
pub struct DoubleDouble {
    pub lo: f64,
    pub hi: f64,
}

// The bit patterns of a pair: in the Rust a tuple, whose two numbers of one type these names tell apart.
#[derive(Clone, Copy)]
pub struct BitPair {
    pub lo: u64,
    pub hi: u64,
}

impl DoubleDouble {
    // The logarithm of 2.
    pub(crate) const LOG2_DD: DoubleDouble = DoubleDouble {
        lo: f64::from_bits(0x3c7abc9e3b39803f),
        hi: f64::from_bits(0x3fe62e42fefa39ef),
    };

    pub(crate) fn from_bit_pair(pair: BitPair) -> Self
        requires t { T (not (nan_bits binary64 pair.lo)) }
        requires t_2 { T (not (nan_bits binary64 pair.hi)) }
        ensures { result ≡ from_bit_pair pair }
    {
        DoubleDouble {
            lo: f64::from_bits(pair.lo),
            hi: f64::from_bits(pair.hi),
        }
    }

    pub(crate) fn new(lo: f64, hi: f64) -> Self
        ensures { result ≡ new_of lo hi }
    {
        DoubleDouble { lo, hi }
    }

    // Veltkamp's splitting: 134217729 is 2^27 + 1.
    pub(crate) fn split(a: f64) -> Self
        ensures { result ≡ split_of a }
    {
        let t1 = 134217729.0 * a;
        let t2 = a - t1;
        let r_hi = t1 + t2;
        let r_lo = a - r_hi;
        DoubleDouble::new(r_lo, r_hi)
    }

    // Fast2Sum: the sum and what its rounding loses, where a is the larger.
    pub(crate) fn from_exact_add(a: f64, b: f64) -> Self
        ensures { result ≡ from_exact_add a b }
    {
        let r_hi = a + b;
        let t = r_hi - a;
        let r_lo = b - t;
        DoubleDouble::new(r_lo, r_hi)
    }

    // TwoSum: the same, whichever is larger.
    pub(crate) fn from_full_exact_add(a: f64, b: f64) -> Self
        ensures { result ≡ from_full_exact_add a b }
    {
        let r_hi = a + b;
        let t1 = r_hi - a;
        let t2 = r_hi - t1;
        let t3 = b - t1;
        let t4 = a - t2;
        let r_lo = t3 + t4;
        DoubleDouble::new(r_lo, r_hi)
    }

    // a × b + c, by the product's pair.
    pub(crate) fn dd_f64_mul_add(a: f64, b: f64, c: f64) -> f64
        ensures { result ≡ dd_f64_mul_add a b c }
    {
        let ddx2 = DoubleDouble::from_exact_mult(a, b);
        let zv = DoubleDouble::full_add_f64(ddx2, c);
        zv.to_f64()
    }

    // TwoSum of a and -b.
    pub(crate) fn from_full_exact_sub(a: f64, b: f64) -> Self
        ensures { result ≡ from_full_exact_sub a b }
    {
        let r_hi = a - b;
        let t1 = r_hi - a;
        let t2 = r_hi - t1;
        let t3 = -b - t1;
        let t4 = a - t2;
        let r_lo = t3 + t4;
        DoubleDouble::new(r_lo, r_hi)
    }

    pub(crate) fn fast_sqrt(self) -> Self
        ensures { result ≡ fast_sqrt self }
    {
        let a = self.hi + self.lo;
        let x = sqrt::sqrt(a);
        let x2 = DoubleDouble::from_exact_mult(x, x);
        let mut r = self.hi - x2.hi;
        r += self.lo;
        r -= x2.lo;
        let dx = r / (2.0 * x);
        let hi = x + dx;
        let lo = (x - hi) + dx;
        DoubleDouble { lo, hi }
    }

    // a × b + c
    pub(crate) fn mul_add_f64(a: DoubleDouble, b: DoubleDouble, c: f64) -> Self
        ensures { result ≡ mul_add_f64 a b c }
    {
        let m = DoubleDouble::quick_mult(a, b);
        let s = DoubleDouble::from_full_exact_add(c, m.hi);
        DoubleDouble::new(m.lo + s.lo, s.hi)
    }

    // 1 / self
    pub(crate) fn recip(self) -> Self
        ensures { result ≡ recip_of self }
    {
        let y = 1.0 / self.hi;
        let p1 = DoubleDouble::from_exact_mult(self.hi, y);
        let e1 = (1.0 - p1.hi) - p1.lo;
        let p2 = DoubleDouble::from_exact_mult(self.lo, y);
        let e2 = (e1 - p2.hi) - p2.lo;
        let e = y * e2;
        DoubleDouble::new(e, y)
    }

    // a / b
    pub(crate) fn div(a: DoubleDouble, b: DoubleDouble) -> Self
        ensures { result ≡ div_of a b }
    {
        let q = 1.0 / b.hi;
        let r_hi = a.hi * q;
        let b_hi_r_hi = DoubleDouble::from_exact_mult(b.hi, -r_hi);
        let b_lo_r_hi = DoubleDouble::from_exact_mult(b.lo, -r_hi);
        let e_hi = (a.hi + b_hi_r_hi.hi) + b_hi_r_hi.lo;
        let e_lo = (a.lo + b_lo_r_hi.hi) + b_lo_r_hi.lo;
        let r_lo = q * (e_hi + e_lo);
        DoubleDouble::new(r_lo, r_hi)
    }

    // TwoProduct, by Dekker's steps, since there is no fma.
    pub(crate) fn from_exact_mult(a: f64, b: f64) -> Self
        ensures { result ≡ from_exact_mult a b }
    {
        let asz = DoubleDouble::split(a);
        let bs = DoubleDouble::split(b);
        let r_hi = a * b;
        let t1 = asz.hi * bs.hi - r_hi;
        let t2 = asz.hi * bs.lo + t1;
        let t3 = asz.lo * bs.hi + t2;
        let r_lo = asz.lo * bs.lo + t3;
        DoubleDouble::new(r_lo, r_hi)
    }

    // a × b + c
    pub(crate) fn mul_f64_add(a: DoubleDouble, b: f64, c: DoubleDouble) -> Self
        ensures { result ≡ mul_f64_add a b c }
    {
        let m = DoubleDouble::quick_mult_f64(a, b);
        let s = DoubleDouble::full_add_f64(c, m.hi);
        DoubleDouble::new(m.lo + s.lo, s.hi)
    }

    // a × b + c
    pub(crate) fn mul_add(a: DoubleDouble, b: DoubleDouble, c: DoubleDouble) -> Self
        ensures { result ≡ mul_add a b c }
    {
        let m = DoubleDouble::quick_mult(a, b);
        let s = DoubleDouble::full_add_f64(c, m.hi);
        DoubleDouble::new(m.lo + s.lo, s.hi)
    }

    // a × b; the two cross products are summed before they join the low part.
    pub(crate) fn quick_mult(a: DoubleDouble, b: DoubleDouble) -> Self
        ensures { result ≡ quick_mult a b }
    {
        let c = DoubleDouble::from_exact_mult(a.hi, b.hi);
        let cl1 = c.lo;
        let tl1 = a.hi * b.lo;
        let tl2 = a.lo * b.hi;
        let cl2 = tl1 + tl2;
        let cl3 = cl1 + cl2;
        DoubleDouble::new(cl3, c.hi)
    }

    // a × b
    pub(crate) fn quick_mult_f64(a: DoubleDouble, b: f64) -> Self
        ensures { result ≡ quick_mult_f64 a b }
    {
        let c = DoubleDouble::from_exact_mult(a.hi, b);
        let cl1 = c.lo;
        let cl2 = a.lo * b;
        let cl3 = cl1 + cl2;
        DoubleDouble::new(cl3, c.hi)
    }

    // a + b, whichever is larger
    pub(crate) fn full_add_f64(a: DoubleDouble, b: f64) -> Self
        ensures { result ≡ full_add_f64 a b }
    {
        let t = DoubleDouble::from_full_exact_add(a.hi, b);
        let l = a.lo + t.lo;
        DoubleDouble { lo: l, hi: t.hi }
    }

    // b + a, for a b that is larger
    pub(crate) fn f64_add(b: f64, a: DoubleDouble) -> Self
        ensures { result ≡ f64_add b a }
    {
        let t = DoubleDouble::from_exact_add(b, a.hi);
        let l = a.lo + t.lo;
        DoubleDouble { lo: l, hi: t.hi }
    }

    pub(crate) fn to_f64(self) -> f64
        ensures { result ≡ to_f64 self }
    {
        self.lo + self.hi
    }
}

impl Neg for DoubleDouble {
    type Output = DoubleDouble;

    ghost neg_gives = { λ a r. r ≡ neg_of a };

    fn neg(self) -> DoubleDouble {
        DoubleDouble {
            lo: -self.lo,
            hi: -self.hi,
        }
    }
}

impl Mul for DoubleDouble {
    type Output = DoubleDouble;

    ghost mul_gives = { λ a b r. r ≡ quick_mult a b };

    fn mul(self, rhs: DoubleDouble) -> DoubleDouble {
        DoubleDouble::quick_mult(self, rhs)
    }
}
