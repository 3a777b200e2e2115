// A double from its bit pattern and back, for every pattern and every double. Compiled code may hold
// any pattern for a NaN, so none of them comes in or leaves: a NaN is 7ff8000000000000.
#![tactic(auto)]

ghost use Rattle.std.specs.Prelude.{◌≡◌};
ghost use Rattle.std.specs.Float.{binary64};
ghost use Rattle.std.specs.Float.Ieee.{of_bits, to_bits};

// The pattern of +infinity, the weight of the sign, and that of the exponent's field, which is also the digit before the point of a normal double.
pub const INFINITY: u64 = 0x7ff0_0000_0000_0000;

pub const SIGN: u64 = 0x8000_0000_0000_0000;

pub const UNIT: u64 = 0x10_0000_0000_0000;

// The pattern of the NaN.
const NAN: u64 = 0x7ff8_0000_0000_0000;

// The double with the pattern b.
pub fn of_bits(b: u64) -> f64
    ensures { result ≡ of_bits binary64 b }
{
    if b % SIGN > INFINITY {
        return f64::NAN;
    }
    f64::from_bits(b)
}

// The pattern of x.
pub fn bits_of(x: f64) -> u64
    ensures { result ≡ to_bits binary64 x }
{
    if x.is_nan() {
        return NAN;
    }
    x.to_bits()
}
