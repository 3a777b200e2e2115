// Numbers written as digits: hexadecimal and decimal, into a lent part or as an array by value.
// The width is the part's length, so that one contract holds at every width.
ghost use Rattle.std.specs.Prelude.{◌≡◌, ◌<◌, ◌≤◌, length, take};
ghost use Rattle.text_digits.specs.Hex.{digits, hex_digits, places_of, decimal_of};

use crate::digit::glyph;

// A number's decimal digits at the start of an array, zeros behind them, and their number.
// They stand so, with their number beside them, since the libraries use no heap.
#[derive(Clone, Copy)]
pub struct Decimal {
    pub digits: [u8; 20],
    pub count: usize,
}

// Fills out with the last digits of n in hexadecimal.
pub fn hex_into(n: u64, out: &mut [u8])
    ensures { out.new ≡ hex_digits (length out.old) n }
{
    spell(n, 16, out);
}

// Fills out with the last digits of n in decimal, zeros in front where n has fewer.
pub fn decimal_into(n: u64, out: &mut [u8])
    ensures { out.new ≡ digits 10 (length out.old) n }
{
    spell(n, 10, out);
}

// The sixteen hexadecimal digits of n.
pub fn hex_of(n: u64) -> [u8; 16]
    ensures { result ≡ hex_digits 16 n }
{
    let mut out = [0u8; 16];
    hex_into(n, &mut out);
    out
}

// The decimal digits of n, with no zero in front. The second clause says what lending the digits asks.
pub fn decimal_of(n: u64) -> Decimal
    ensures value { result ≡ decimal_of n }
    ensures count_bound { (result.count ≤ 20) × (20 ≡ length result.digits) × (result.count ≡ length (take result.count result.digits)) }
{
    let count = places(n);
    let mut out = [0u8; 20];
    decimal_into(n, &mut out[..count]);
    Decimal { digits: out, count }
}

// How many decimal digits n has.
fn places(n: u64) -> usize
    ensures { (result ≡ places_of n) × (result ≤ 20) }
{
    let mut count: usize = 1;
    let mut rest = n;
    while rest >= 10 {
        rest /= 10;
        count += 1;
    }
    count
}

// Fills out from its end with the digits of n in a base.
fn spell(n: u64, base: u64, out: &mut [u8])
    requires { (0 < base) × (base ≤ 16) }
    ensures { out.new ≡ digits base (length out.old) n }
{
    let mut rest = n;
    for i in (0..out.len()).rev() {
        out[i] = glyph(rest % base);
        rest /= base;
    }
}
