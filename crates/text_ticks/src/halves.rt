// Twice the size of a double, rounded down and up: from these two every rounding to a whole number follows.
// A double of the range is m / 2^k, with 53 binary digits in m, or too small to have a half.
ghost use Rattle.std.specs.Prelude.{◌≡◌, ◌*◌, ◌/◌, ◌^◌, ◌≤◌, ◌<◌};
ghost use Rattle.std.specs.Float.{binary64};
ghost use Rattle.std.specs.Float.Ieee.{of_bits};
ghost use Rattle.std.specs.Float.Ieee.Positive.{num, den};
ghost use Rattle.text_ticks.specs.Ticks.{ceiling};
ghost use Rattle.text_ticks.specs.Halves.{IsHalves};

use double_bits::UNIT;

#[derive(Clone, Copy)]
pub(crate) struct Halves {
    pub(crate) down: u64,
    pub(crate) up: u64,
}

// Of the double with the pattern b, which has no sign and is below 2^53.
pub(crate) fn halves_of(b: u64) -> Halves
    requires { b < 1076 * 2 ^ 52 }
    ensures { IsHalves (of_bits binary64 b) result.down result.up }
{
    if b == 0 {
        return Halves { down: 0, up: 0 };
    }
    let e = b / UNIT;
    if e < 1015 {
        return Halves { down: 0, up: 1 };
    }
    let unit = power(1075 - e);
    let twice = (b % UNIT + UNIT) * 2;
    Halves {
        down: twice / unit,
        up: (twice + (unit - 1)) / unit,
    }
}

// A power of two.
fn power(k: u64) -> u64
    requires { k ≤ 60 }
    ensures { (result ≡ 2 ^ k) × (1 ≤ result) × (result ≤ 2 ^ 60) }
{
    1u64 << k
}
