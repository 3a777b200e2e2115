// The size of a double as a fraction m / 2^k in lowest terms, from its bit pattern.
// The field of the exponent gives k, and common factors of two are taken out one by one.
ghost use Rattle.std.specs.Prelude.{◌*◌, ◌%◌, ◌^◌, ◌<◌};
ghost use Rattle.std.specs.Float.{binary64};
ghost use Rattle.std.specs.Float.Ieee.{of_bits};
ghost use Rattle.text_decimal.specs.Lowest.{IsLowest, IsSize};

use double_bits::{SIGN, UNIT};

// m / 2^k.
#[derive(Clone, Copy)]
pub(crate) struct Fraction {
    pub(crate) m: u64,
    pub(crate) k: u64,
}

// The size of the double with the pattern b, which is below 2^53.
pub(crate) fn fraction_of(b: u64) -> Fraction
    requires { b % 2 ^ 63 < 1076 * 2 ^ 52 }
    ensures { IsSize (of_bits binary64 b) result.m result.k }
{
    let e = b % SIGN / UNIT;
    let t = b % UNIT;
    if e == 0 {
        return lowest(t, 1074);
    }
    lowest(UNIT + t, 1075 - e)
}

// m / 2^k in lowest terms.
fn lowest(m: u64, k: u64) -> Fraction
    ensures { IsLowest m k result.m result.k }
{
    let mut n = m;
    let mut j = k;
    while j > 0 && n % 2 == 0 {
        n /= 2;
        j -= 1;
    }
    Fraction { m: n, k: j }
}
