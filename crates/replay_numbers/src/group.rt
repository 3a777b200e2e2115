// The distances of one group of lines: how many, the greatest and its place, and how many are beyond the bound.
// The bound is in ten-thousandths of a unit.
ghost use Rattle.std.specs.Prelude.{◌≡◌, if◌then◌else◌, nat_lt};
ghost use Rattle.replay_lines.specs.Lines.{one_more};
ghost use Rattle.replay_numbers.specs.Numbers.{empty_group, grouped};

use crate::distance::ten_thousandths;
use replay_lines::one_more;

#[derive(Clone, Copy)]
pub(crate) struct Group {
    pub count: u64,
    // how many results are within half a unit, and so the nearest double
    pub nearest: u64,
    pub greatest: u64,
    // the bits of x at the greatest distance
    pub at: u64,
    pub bound: u64,
    pub beyond: u64,
}

impl Group {
    // A group with no line yet.
    pub(crate) fn within(bound: u64) -> Group
        ensures { result ≡ empty_group bound }
    {
        Group {
            count: 0,
            nearest: 0,
            greatest: 0,
            at: 0,
            bound,
            beyond: 0,
        }
    }

    // The group with one distance more.
    pub(crate) fn with(self, x: u64, distance: u64) -> Group
        ensures { result ≡ grouped self x distance }
    {
        Group {
            count: one_more(self.count),
            nearest: one_more_if(distance <= 0x80000000, self.nearest),
            greatest: self.greatest.max(distance),
            at: self.x_of_greater(x, distance),
            bound: self.bound,
            beyond: one_more_if(self.bound < ten_thousandths(distance), self.beyond),
        }
    }

    // The x of the greater distance, the first one's where they are equal.
    #[tactic(auto, using(std::proofs::lemmas::Bool::Decides::nat_tests))]
    fn x_of_greater(self, x: u64, distance: u64) -> u64
        ensures { result ≡ (if nat_lt self.greatest distance then x else self.at) }
    {
        if self.greatest < distance { x } else { self.at }
    }
}

// One more where a test holds.
#[tactic(auto, using(std::proofs::lemmas::Bool::Decides::nat_tests))]
fn one_more_if(test: bool, n: u64) -> u64
    ensures { result ≡ (if test then one_more n else n) }
{
    if test { one_more(n) } else { n }
}
