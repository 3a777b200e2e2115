// The exact decimal of a double, put into a lent line. What has no room is left out, as in crate text_digits.
// Ten times what is left behind the point gives the next digit: five times it, over half of what it was over.
// The line and the place in it stay two parameters, for the reason in crate text_digits.
ghost use Rattle.std.specs.Prelude.{◌*◌, ◌^◌, ◌≤◌, ◌<◌, ◌≡◌};
ghost use Rattle.std.specs.Float.{binary64};
ghost use Rattle.std.specs.Float.Ieee.{of_bits};
ghost use Rattle.text_digits.specs.Hex.{digits};
ghost use Rattle.text_digits.specs.Text.{Put};
ghost use Rattle.text_decimal.specs.Decimal.{most_places, fraction_text, signed_text, exact_text};

use crate::fraction::{Fraction, fraction_of};
use double_bits::SIGN;
use text_digits::{put, put_decimal};
use text_ticks::END;

// The most binary digits behind the point.
const MOST: u64 = 60;

// Puts the exact decimal of the double with the pattern b, or a dash, and answers the place behind it.
pub fn put_exact(line: &mut [u8], place: usize, b: u64) -> usize
    ensures { Put line.old place (exact_text (of_bits binary64 b)) line.new result }
{
    if b % SIGN >= END {
        return put(line, place, b"-");
    }
    let f = fraction_of(b);
    if f.k > MOST {
        return put(line, place, b"-");
    }
    put_signed(line, place, b >= SIGN, f)
}

// A fraction behind a sign, where it has one.
fn put_signed(line: &mut [u8], place: usize, below: bool, f: Fraction) -> usize
    requires { f.k ≤ most_places }
    ensures { Put line.old place (signed_text below f.m f.k) line.new result }
{
    let p = if below { put(line, place, b"-") } else { place };
    put_fraction(line, p, f)
}

// A fraction: the whole number, and behind a point what is left, if something is.
fn put_fraction(line: &mut [u8], place: usize, f: Fraction) -> usize
    requires { f.k ≤ most_places }
    ensures { Put line.old place (fraction_text f.m f.k) line.new result }
{
    let unit = 1u64 << f.k;
    let p = put_decimal(line, place, f.m / unit);
    if f.k == 0 {
        return p;
    }
    let q = put(line, p, b".");
    put_digits(line, q, f.m % unit, f.k)
}

// The k digits of rest / 2^k, a fraction below 1.
fn put_digits(line: &mut [u8], place: usize, rest: u64, k: u64) -> usize
    requires { (k ≤ most_places) × (rest < 2 ^ k) }
    ensures { Put line.old place (digits 10 k (rest * 5 ^ k)) line.new result }
{
    let mut p = place;
    let mut r = rest;
    for left in (0..k).rev() {
        let unit = 1u64 << left;
        let next = r * 5;
        p = put_decimal(line, p, next / unit);
        r = next % unit;
    }
    p
}
