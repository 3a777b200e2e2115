// The whole root by divisions: the root of the leading digits, 4, 7, 14, 27 and 54 binary digits of it.
// Each step doubles the number of digits, or nearly, by one division and one square.
ghost use Rattle.std.specs.Prelude.{◌+◌, ◌*◌, ◌/◌, ◌^◌, ◌<◌, ◌≤◌};
ghost use Rattle.sqrt.specs.Sqrt.{IsRoot};
ghost use Rattle.sqrt.specs.Steps.{IsRest, IsWhole};

use crate::root::Whole;

impl Whole {
    // The root and remainder of (s * s + r) * w * w + hi * w + lo, from a root s with remainder r.
    // The quotient by twice the root is the next digits, or one more than they are.
    fn extend(self, w: u64, hi: u64, lo: u64) -> Whole
        requires { (self.rest ≤ 2 * self.root) × (0 < self.root) × (self.root < 2 ^ 27) × (w ≤ 2 * self.root) × (hi < w) × (lo < w) × (w ≤ 2 ^ 27) }
        ensures { IsRest ((self.root * self.root + self.rest) * (w * w) + hi * w + lo) result.root result.rest }
    {
        let Whole { root: s, rest: r } = self;
        let d = s * 2;
        let n = r * w + hi;
        let q = n / d;
        let u = n % d * w + lo;
        let t = s * w + q;
        let y = q * q;
        if y <= u {
            Whole {
                root: t,
                rest: u - y,
            }
        } else {
            Whole {
                root: t - 1,
                rest: u + (t * 2 - 1) - y,
            }
        }
    }
}

// The root of a number of 7 or 8 binary digits.
fn root4(n: u64) -> u64
    requires { (64 ≤ n) × (n < 256) }
    ensures { (IsRoot n result) × (8 ≤ result) × (result < 16) }
{
    match n {
        ..81 => 8,
        81..100 => 9,
        100..121 => 10,
        121..144 => 11,
        144..169 => 12,
        169..196 => 13,
        196..225 => 14,
        _ => 15,
    }
}

// A function for each number of digits: each is one call of `extend`, and its contract says which digits are reached. One function for all would take
// three constants in place of a name, and is no plainer.
// The root of q's leading digits, those above the lowest 40.
fn root7(q: u64) -> Whole
    requires { (2 ^ 52 ≤ q) × (q < 2 ^ 54) }
    ensures { IsRest (q / 2 ^ 40) result.root result.rest }
{
    let n = q / 0x4000_0000_0000;
    let s = root4(n);
    let w = Whole {
        root: s,
        rest: n - s * s,
    };
    w.extend(8, q / 0x800_0000_0000 % 8, q / 0x100_0000_0000 % 8)
}

// The root of q's leading digits, those above the lowest 26.
fn root14(q: u64) -> Whole
    requires { (2 ^ 52 ≤ q) × (q < 2 ^ 54) }
    ensures { IsRest (q / 2 ^ 26) result.root result.rest }
{
    let p = root7(q);
    p.extend(128, q / 0x2_0000_0000 % 128, q / 0x400_0000 % 128)
}

// The root of q.
fn root27(q: u64) -> Whole
    requires { (2 ^ 52 ≤ q) × (q < 2 ^ 54) }
    ensures { IsRest q result.root result.rest }
{
    let p = root14(q);
    p.extend(8192, q / 8192 % 8192, q % 8192)
}

// The root of q * 2^54.
pub(crate) fn root54(q: u64) -> Whole
    requires { (2 ^ 52 ≤ q) × (q < 2 ^ 54) }
    ensures { IsWhole q result.root result.rest }
{
    let p = root27(q);
    p.extend(0x800_0000, 0, 0)
}
