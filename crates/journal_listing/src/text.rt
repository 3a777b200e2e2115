// Numbers and pairs put into a lent buffer, one behind another. What has no room is left out, as in crate text_digits.
// Each answers the place behind what it put. The line and the place stay two parameters, for the reason in crate text_digits.
ghost use Rattle.std.specs.Prelude.{◌≡◌, ◌∷◌, ◌++◌, ◌+◌, ◌*◌, ◌≤◌, min, length};
ghost use Rattle.text_digits.specs.Hex.{hex_digits};
ghost use Rattle.text_digits.specs.Text.{Put};
ghost use Rattle.limit.specs.Answer.{moments_meaning};
ghost use Rattle.journal_spec.specs.Bytes.{numbers_in};
ghost use Rattle.journal_spec.specs.Log.{space};
ghost use Rattle.journal_listing.specs.Listing.{mean_bits, spread_bits, quoted_limit, quoted_limits};
ghost use Rattle.journal_listing.specs.Spaced.{each_spaced};
ghost use Rattle.journal_parts.specs.Spans.{Inside, numbers_of};

use crate::moments::{mean_bits, spread_bits};
use journal_parts::{Span, number_at};
use limit::Moments;
use refusals::Refusal;
use text_digits::{put, put_decimal};

// Mean and spread, a space before each.
pub(crate) fn put_moments(out: &mut [u8], at: usize, worked: Result<Moments, Refusal>) -> usize
    ensures { Put out.old at
        ((space ∷ hex_digits 16 (mean_bits (moments_meaning worked))) ++ (space ∷ hex_digits 16 (spread_bits (moments_meaning worked))))
        out.new result }
{
    let mean = mean_bits(worked);
    let spread = spread_bits(worked);
    let p = put_bits(out, at, mean);
    put_bits(out, p, spread)
}

// A space and the 16 digits of a bit pattern.
fn put_bits(out: &mut [u8], at: usize, bits: u64) -> usize
    ensures { Put out.old at (space ∷ hex_digits 16 bits) out.new result }
{
    let p = put(out, at, b" ");
    let digits = text_digits::hex_of(bits);
    put(out, p, &digits)
}

// A space and `chance:limit`.
fn put_limit(out: &mut [u8], at: usize, chance: u64, limit: u64) -> usize
    ensures { Put out.old at (space ∷ quoted_limit chance limit) out.new result }
{
    let p = put(out, at, b" ");
    let q = put_decimal(out, p, chance);
    let r = put(out, q, b":");
    let digits = text_digits::hex_of(limit);
    put(out, r, &digits)
}

// Each chance with its limit, a space before each pair.
pub(crate) fn put_limits(b: &[u8], chances: Span, limits: Span, out: &mut [u8], at: usize) -> usize
    requires { Inside 4 chances b.now × Inside 8 limits b.now }
    ensures { Put out.old at
        (each_spaced (quoted_limits (numbers_of 4 chances b.now) (numbers_of 8 limits b.now))) out.new result }
{
    let pairs = chances.count.min(limits.count);
    put_pairs(b, chances.first, limits.first, pairs, out, at)
}

// The pairs of n chances and n limits, each from a place on.
fn put_pairs(b: &[u8], chances: usize, limits: usize, n: usize, out: &mut [u8], at: usize) -> usize
    requires { (chances + n * 4 ≤ length b.now) × (limits + n * 8 ≤ length b.now) }
    ensures { Put out.old at
        (each_spaced (quoted_limits (numbers_in 4 n chances b.now) (numbers_in 8 n limits b.now))) out.new result }
{
    let mut place = at;
    for i in 0..n {
        let chance = number_at(b, chances + i * 4, 4);
        let limit = number_at(b, limits + i * 8, 8);
        place = put_limit(out, place, chance, limit);
    }
    place
}
