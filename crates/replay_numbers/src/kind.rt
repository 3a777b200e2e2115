// What a line tells of: the numbers of one function over one range, all bits or their distances.
// A line names it by a letter.
ghost use Rattle.std.specs.Prelude.{◌≡◌, ◌<◌};
ghost use Rattle.replay_numbers.specs.Kinds.{answer_of, kind_of, place_of, value_of};

use pxfm::err::inverf::f_erfinv_bits;
use pxfm::err::inverfc::f_erfcinv_bits;

#[derive(Clone, Copy, Debug, PartialEq, Eq)]
pub(crate) enum Kind {
    Answers,
    Mirror,
    Far,
    Small,
    Others,
    Chances,
    Inverse,
}

impl Kind {
    // The kind with a letter.
    #[tactic(auto, unfolding(crate::specs::Kinds::kind_of))]
    pub(crate) fn of(letter: u8) -> Option<Kind>
        ensures { result ≡ kind_of letter }
    {
        match letter {
            b'q' => Some(Kind::Answers),
            b'm' => Some(Kind::Mirror),
            b'f' => Some(Kind::Far),
            b's' => Some(Kind::Small),
            b'o' => Some(Kind::Others),
            b'c' => Some(Kind::Chances),
            b'i' => Some(Kind::Inverse),
            _ => None,
        }
    }

    // The place of the kind's group.
    pub(crate) fn place(self) -> usize
        ensures { (result ≡ place_of self) × (result < 7) }
    {
        match self {
            Kind::Answers => 0,
            Kind::Mirror => 1,
            Kind::Far => 2,
            Kind::Small => 3,
            Kind::Others => 4,
            Kind::Chances => 5,
            Kind::Inverse => 6,
        }
    }

    // The kind's function at x.
    pub(crate) fn answer(self, x: u64) -> u64
        ensures { result ≡ answer_of self x }
    {
        match self {
            Kind::Inverse => f_erfinv_bits(x),
            _ => f_erfcinv_bits(x),
        }
    }

    // The double that an answer is measured from: the line's own, or, in a line of the mirror, the quantile at it with the sign bit flipped.
    pub(crate) fn value(self, double: u64) -> u64
        ensures { result ≡ value_of self double }
    {
        match self {
            Kind::Mirror => f_erfcinv_bits(double).wrapping_add(0x8000_0000_0000_0000),
            _ => double,
        }
    }
}
