// The square root of a double, correctly rounded: document 01's Root. The body goes as IEEE 754
// does: special operands, the exact root of the scaled significand with its remainder, one rounding.
// docs/DEFINITION.md, section 16.1, sets the standard's clauses beside these lines and their contracts.
#![tactic(auto)]

ghost use Rattle.std.specs.Prelude.{◌≡◌, false, from_bits, to_bits};
ghost use Rattle.std.specs.Float.{binary64};
ghost use Rattle.std.specs.Float.Ieee.{lt};
ghost use Rattle.sqrt.specs.Sqrt.{sqrt_of};

mod division;
mod guess;
mod root;
mod rounding;
mod scale;

// The square root of x.
pub fn sqrt(x: f64) -> f64
    ensures { result ≡ sqrt_of x }
{
    // 1. Special operands: a zero is its own root, below zero and at a NaN there is none, and the infinity is its own.
    if !(0.0 < x) {
        return not_positive(x);
    }
    let b = x.to_bits();
    if b >= double_bits::INFINITY {
        return x;
    }
    // 2. The exact root: x scaled to a whole number, its whole root, and the remainder.
    let n = scale::scaled(b);
    let w = root::whole_root(n.q, guess::inverse_root(b));
    // 3. One rounding, from the whole root and its remainder.
    w.rounded(n.z)
}

// The root of an operand that is not above zero: a zero is its own root, and the others have none.
fn not_positive(x: f64) -> f64
    requires { lt (from_bits binary64 0) x ≡ false }
    ensures { result ≡ sqrt_of x }
{
    if x == 0.0 {
        return x;
    }
    f64::NAN
}

// The same on bit patterns, as C and the comparisons call it.
pub fn sqrt_bits(b: u64) -> u64
    ensures { result ≡ to_bits binary64 (sqrt_of (from_bits binary64 b)) }
{
    double_bits::bits_of(sqrt(double_bits::of_bits(b)))
}
