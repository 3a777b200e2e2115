// The tally of the lines, and the buffer that they leave. A line that differs or is malformed is written out as it is met.
// Lines have one length, so a chunk holds whole ones, but for the last.
ghost use Rattle.std.specs.Prelude.{◌≡◌};
ghost use Rattle.replay_cases.specs.Replay.{counted, replayed};

use crate::compare::{Compared, compare};
use crate::line::case_of;
use crate::store::store;
use replay_lines::{Output, Tally, line_end};

// The lines of a chunk, one after another; the last may be cut short, and is malformed then.
pub(crate) fn tally_chunk(out: Output, chunk: &[u8], v: &mut [u8], t: Tally) -> Tally
    ensures value { result ≡ (replayed chunk.now v.old t).tally }
    ensures v_after { v.new ≡ (replayed chunk.now v.old t).bytes }
{
    let mut tally = t;
    let mut at = 0;
    while at < chunk.len() {
        let end = line_end(at, 56, chunk.len());
        let line = &chunk[at..end];
        let a = case_of(line);
        let compared = compare(line, a, v);
        store(a, v);
        tally = count(tally, compared);
        show(out, tally, line, compared);
        at = end;
    }
    tally
}

// A tally with one line more.
#[tactic(auto, unfolding(crate::specs::Replay::counted))]
fn count(t: Tally, c: Compared) -> Tally
    ensures { result ≡ counted t c }
{
    match c {
        Compared::Stored => t,
        Compared::Same => t.compared_more(true),
        Compared::Differs => t.compared_more(false),
        Compared::Malformed => t.malformed_more(),
    }
}

// Writes the line out unless it is as expected.
fn show(out: Output, t: Tally, line: &[u8], c: Compared) {
    match c {
        Compared::Stored | Compared::Same => {}
        Compared::Differs => {
            out.print(b"differs: ");
            out.print(line);
        }
        Compared::Malformed => out.print_malformed(t),
    }
}
