// Whole ticks of a double: the least number not below it, and the nearest one.
// A limit is rounded up, so that no slot is cut shorter than it.
ghost use Rattle.std.specs.Prelude.{◌≡◌, cond, ◌+◌, ◌*◌, ◌/◌, ◌%◌, ◌^◌, ◌≤◌, ◌<◌, MatchOption};
ghost use Rattle.std.specs.Float.{binary64};
ghost use Rattle.std.specs.Float.Ieee.{of_bits};
ghost use Rattle.text_ticks.specs.Halves.{IsHalves};
ghost use Rattle.text_ticks.specs.Ticks.{counted, ticks_up, ticks_near};

use crate::halves::{Halves, halves_of};
use double_bits::SIGN;

// The pattern of 2^53, from which on no double has whole ticks.
pub const END: u64 = 0x4340_0000_0000_0000;

// A whole number of ticks: below zero, or not; 0 is not.
// The size is any u64, so that no signed type would hold every count.
#[derive(Clone, Copy)]
pub struct Count {
    pub below: bool,
    pub size: u64,
}

// The least whole number of ticks not below the double with the pattern b. What is not finite, or from 2^53 on in size, has none.
pub fn ticks_up(b: u64) -> Option<Count>
    ensures { result ≡ ticks_up (of_bits binary64 b) }
{
    let h = halves_in_range(b)?;
    let below = b >= SIGN;
    let least = up_size(below, h.down, h.up);
    Some(counted(below, least))
}

// The whole number of ticks nearest to the double with the pattern b, and of two the upper one. What `ticks_up` declines has none.
pub fn ticks_near(b: u64) -> Option<Count>
    ensures { result ≡ ticks_near (of_bits binary64 b) }
{
    let h = halves_in_range(b)?;
    let below = b >= SIGN;
    let nearest = near_size(below, h.down, h.up);
    Some(counted(below, nearest))
}

// Twice the size of the double with the pattern b, where it is finite and below 2^53 in size.
fn halves_in_range(b: u64) -> Option<Halves>
    ensures { MatchOption result (1076 * 2 ^ 52 ≤ b % 2 ^ 63)
        (λ h. (b % 2 ^ 63 < 1076 * 2 ^ 52) × IsHalves (of_bits binary64 b) h.down h.up) }
{
    let size = b % SIGN;
    if size >= END {
        return None;
    }
    Some(halves_of(size))
}

// Rounded up: above zero away from it, below zero towards it. To the nearest is this with its two halves exchanged; each says its own rounding.
fn up_size(below: bool, down: u64, up: u64) -> u64
    requires { up < 2 ^ 62 }
    ensures { result ≡ cond below (down / 2) ((up + 1) / 2) }
{
    if below { down / 2 } else { (up + 1) / 2 }
}

// To the nearest: half a tick goes up.
fn near_size(below: bool, down: u64, up: u64) -> u64
    requires { down < 2 ^ 62 }
    ensures { result ≡ cond below (up / 2) ((down + 1) / 2) }
{
    if below { up / 2 } else { (down + 1) / 2 }
}

// So many ticks with a sign.
fn counted(below: bool, size: u64) -> Count
    ensures { result ≡ counted below size }
{
    Count {
        below: below && 0 < size,
        size,
    }
}
