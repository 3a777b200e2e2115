// How many answers were compared, how many differ, how many lines are malformed.
// A count stays at the largest u64 and does not start again; a line that only stores something is not counted.
ghost use Rattle.std.specs.Prelude.{◌≡◌};
ghost use Rattle.replay_lines.specs.Tally.{compared_more, malformed_more};

use crate::count::one_more;

#[derive(Clone, Copy)]
pub struct Tally {
    pub compared: u64,
    pub differ: u64,
    pub malformed: u64,
}

impl Tally {
    // No line yet.
    pub const ZERO: Tally = Tally {
        compared: 0,
        differ: 0,
        malformed: 0,
    };

    // A tally with one answer more, which is the same as expected or not.
    #[tactic(auto, unfolding(crate::specs::Tally::compared_more))]
    pub fn compared_more(self, same: bool) -> Tally
        ensures { result ≡ compared_more self same }
    {
        let differ = if same {
            self.differ
        } else {
            one_more(self.differ)
        };
        Tally {
            compared: one_more(self.compared),
            differ,
            ..self
        }
    }

    // A tally with one malformed line more.
    #[tactic(auto, unfolding(crate::specs::Tally::malformed_more))]
    pub fn malformed_more(self) -> Tally
        ensures { result ≡ malformed_more self }
    {
        Tally {
            malformed: one_more(self.malformed),
            ..self
        }
    }
}
