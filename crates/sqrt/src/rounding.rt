// The last step: one rounding, from the whole root and its remainder, to nearest, a tie to even.
// It writes the bits of the result straight away, since the root has one binary digit more than a double.
ghost use Rattle.std.specs.Prelude.{◌≡◌, ◌^◌, ◌<◌, ◌≤◌};
ghost use Rattle.std.specs.Float.{binary64};
ghost use Rattle.sqrt.specs.Sqrt.{round_root};

use crate::root::Whole;
use double_bits::UNIT;

impl Whole {
    // The root times 2^z smallest doubles, rounded once. The whole root has 54 digits: the last is dropped, and is worth a half of the one
    // before it; z + 1 goes before the others. In `sqrt` there is no tie, since the number under the root is even (`no_tie`).
    pub(crate) fn rounded(self, z: u64) -> f64
        requires { (2 ^ 53 ≤ self.root) × (self.root < 2 ^ 54) × (z < 2000) }
        ensures { result ≡ round_root binary64 self.root self.rest z }
    {
        // The last digit is 1 and nothing remains: exactly half. A tie goes to the even one.
        if self.rest == 0 && self.root % 2 == 1 {
            let kept = self.root / 2;
            return f64::from_bits((z + 1) * UNIT + kept + kept % 2);
        }
        // A last digit of 1 only looks like a tie: with what remains it is above half, and goes up. One of 0 is below half, whatever remains.
        f64::from_bits(((z + 1) * 2 * UNIT + self.root + 1) / 2)
    }
}
