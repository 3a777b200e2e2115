// The scaled significand: a double above zero as q * 2^54 * 4^z, with a q of 53 or 54 binary digits,
// in units of the square of the smallest double. The root of q * 2^54 then has 54 binary digits.
ghost use Rattle.std.specs.Prelude.{◌*◌, ◌^◌, ◌<◌, from_bits};
ghost use Rattle.std.specs.Float.{binary64};
ghost use Rattle.sqrt.specs.Sqrt.{radicand};
ghost use Rattle.sqrt.specs.Steps.{IsScaled};

use double_bits::UNIT;

#[derive(Clone, Copy)]
pub(crate) struct Radicand {
    pub(crate) q: u64,
    pub(crate) z: u64,
}

// The double with the pattern b, scaled. An odd power of two gives one factor to q.
pub(crate) fn scaled(b: u64) -> Radicand
    requires { (0 < b) × (b < 2047 * 2 ^ 52) }
    ensures { IsScaled (radicand binary64 (from_bits binary64 b)) result.q result.z }
{
    let e = b / UNIT;
    let t = b % UNIT;
    if e == 0 {
        return subnormal(t);
    }
    let k = e + 1019;
    let m = t + UNIT;
    let q = if k % 2 == 0 { m } else { m * 2 };
    Radicand { q, z: k / 2 }
}

// m smallest doubles, scaled: m takes two binary digits from the power of four until it has 53.
fn subnormal(m: u64) -> Radicand
    requires { (0 < m) × (m < 2 ^ 52) }
    ensures { IsScaled (m * 2 ^ 1074) result.q result.z }
{
    let mut q = m;
    let mut z = 510;
    while q < UNIT {
        q *= 4;
        z -= 1;
    }
    Radicand { q, z }
}
