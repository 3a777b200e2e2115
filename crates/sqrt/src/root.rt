// The middle step: the exact root of the scaled significand, as a whole number with its remainder.
// A guess is checked by its square, in whole numbers; where it is not the root the divisions give it, and their answer's fields are copied, so
// that a checked root and its remainder can stay in registers.
ghost use Rattle.std.specs.Prelude.{◌^◌, ◌<◌, ◌≤◌};
ghost use Rattle.sqrt.specs.Steps.{IsFirst, IsWhole};

use crate::division;

#[derive(Clone, Copy)]
pub(crate) struct Whole {
    pub(crate) root: u64,
    pub(crate) rest: u64,
}

// The whole root of q * 2^54, and the remainder, for any y. If y is close below 2^63 / √(q * 2^10),
// then g is close below √(q * 2^10), and l is the next 22 digits: the remainder of g times y / 2.
// The 16 and the 1 make up for what is cut off on the way, so that l is seldom too small.
pub(crate) fn whole_root(q: u64, y: u64) -> Whole
    requires { (2 ^ 52 ≤ q) × (q < 2 ^ 54) × (y < 2 ^ 32) }
    ensures { IsWhole q result.root result.rest }
{
    let g = q / 0x40_0000 * y / 0x8000_0000;
    if g < 0x1_0000_0000 {
        let t = (q * 1024 + 16).wrapping_sub(g * g);
        if t < 0xf_0000_0000 {
            let l = t * (y / 16 + 1) / 0x40_0000_0000;
            return checked(q, g, t, l);
        }
    }
    let w = division::root54(q);
    Whole {
        root: w.root,
        rest: w.rest,
    }
}

// The same from a guess s = g * 2^22 + l. With d for q * 2^10 - g * g, which is t - 16, the remainder
// of s is (d * 2^21 - g * l) * 2^23 - l * l: products of 32 bits decide. e is the bracket, and 2^33
// more, so that it is not negative. Where the remainder is negative, s - 1 is tried.
fn checked(q: u64, g: u64, t: u64, l: u64) -> Whole
    requires { (2 ^ 52 ≤ q) × (q < 2 ^ 54) × (IsFirst q g t) × (l < 2 ^ 26) }
    ensures { IsWhole q result.root result.rest }
{
    let s = g * 0x40_0000 + l;
    let e = ((t + 4080) * 0x20_0000).wrapping_sub(g * l);
    if e < 0x100_0000_0000 {
        let r = (e * 0x80_0000).wrapping_sub(l * l + 0x100_0000_0000_0000);
        if r <= s * 2 {
            return Whole { root: s, rest: r };
        }
        let u = r.wrapping_add(s * 2 - 1);
        if u <= s * 2 - 2 {
            return Whole {
                root: s - 1,
                rest: u,
            };
        }
    }
    let w = division::root54(q);
    Whole {
        root: w.root,
        rest: w.rest,
    }
}
