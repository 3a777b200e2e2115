// The groups of all lines, and how many have another form.
// A line that differs, is malformed or is of the far group is written out as it is met.
ghost use Rattle.std.specs.Prelude.{◌≡◌};
ghost use Rattle.replay_numbers.specs.Numbers.{counted, no_lines, tallied};

use crate::group::Group;
use crate::kind::Kind;
use crate::line::{Measured, measure};
use crate::report::show;
use replay_lines::{Output, line_end, one_more};

// Each kind's group at its place, and the lines of another form.
#[derive(Clone, Copy)]
pub(crate) struct Groups {
    all: [Group; 7],
    pub malformed: u64,
}

impl Groups {
    // No line yet. The bounds are in ten-thousandths of a unit of the last place.
    pub(crate) fn none() -> Groups
        ensures { result ≡ no_lines }
    {
        let same = Group::within(0);
        let far = Group::within(u64::MAX);
        let small = Group::within(11000);
        let others = Group::within(5300);
        Groups {
            all: [same, same, far, small, others, others, others],
            malformed: 0,
        }
    }

    // A kind's group.
    pub(crate) fn of(&self, kind: Kind) -> Group {
        self.all[kind.place()]
    }

    // The groups with one line more.
    #[tactic(auto, unfolding(crate::specs::Numbers::counted))]
    pub(crate) fn count(mut self, line: Option<Measured>) -> Groups
        ensures { result ≡ counted self line }
    {
        if let Some(m) = line {
            let place = m.kind.place();
            self.all[place] = self.all[place].with(m.x, m.distance);
        } else {
            self.malformed = one_more(self.malformed);
        }
        self
    }

    // The groups with the lines of a chunk, one after another; the last may be cut short, and is malformed then.
    pub(crate) fn tally_chunk(self, out: Output, chunk: &[u8]) -> Groups
        ensures { result ≡ tallied chunk.now self }
    {
        let mut tally = self;
        let mut at = 0;
        while at < chunk.len() {
            let end = line_end(at, 45, chunk.len());
            let measured = measure(&chunk[at..end]);
            tally = tally.count(measured);
            show(out, measured);
            at = end;
        }
        tally
    }
}
