// The journal: scan, document 01's survey; reading's two calls, the part of a record and its mark; append, and the call with a budget, each
// of times or through a log; and each of them by a rule, request 2026-14's profile calls among them.
// Each goes over the journal's bytes once; nothing is assumed of the slice, the length or what is offered.
#![tactic(auto)]

ghost use Rattle.std.specs.Prelude.{◌≡◌};
ghost use Rattle.std.proofs.Math.Option.{none};
ghost use Rattle.journal_spec.specs.Profile.{plain};
ghost use Rattle.journal_spec.specs.Scan.{contents_of, scan_of};
ghost use Rattle.journal_spec.specs.Read.{part_place, read_part, read_mark};
ghost use Rattle.journal_spec.specs.Request.{all, up_to, request_of};
ghost use Rattle.journal_spec.specs.Request as Request;
ghost use Rattle.journal_spec.specs.Append.{append_of};
ghost use Rattle.journal.specs.Answers.{meaning, place_meaning, mark_meaning, outcome_of};
ghost use Rattle.journal.specs.Contents.{place_read};

use crate::marks::Mark;
use refusals::Refusal;

mod contents;
mod extend;
mod field;
mod layout;
mod limits;
mod log;
pub mod marks;
mod offer;
mod profile;
mod quantiles;
mod reading;
mod record;
mod section;
mod write;

pub use contents::{Contents, MAX_LENGTH, Shown, contents_of};
pub use extend::{Asked, Budget, FIXED_SIZE, append_with, extend_by};
pub use layout::MAX_RECORD;
pub use log::{append_log, append_log_upto, append_log_with};
pub use profile::Rule;
pub use reading::{mark_by, part_place_by, read_by, scan_by, status_of};
pub use record::{Head, MAX_CHANCES, MAX_DAY};

// A refusal, and the place of what is refused: a field's first byte in the journal, or a line's in the log.
#[derive(Clone, Copy, Debug, PartialEq, Eq)]
pub struct Fault {
    pub refusal: Refusal,
    pub place: usize,
}

// Whole if the records take all of the length, torn if bytes of a record that is not whole follow them; with the number of the records
// and the committed length. Or damaged, with the first fault. These are document 01's three cases, and no case is an error to its callers.
#[derive(Clone, Copy, Debug, PartialEq, Eq)]
pub enum Status {
    Whole { records: usize, committed: usize },
    Torn { records: usize, committed: usize },
    Damaged(Fault),
}

// A record's part of the slice: the place of its first byte and its bytes' number.
#[derive(Clone, Copy, Debug, PartialEq, Eq)]
pub struct Part {
    pub start: usize,
    pub size: usize,
}

// Why an append leaves the journal as it was: declined; or declined for a line of the log, with the place in the log of that line's first byte;
// or damaged, with the journal's first fault.
#[derive(Clone, Copy, Debug, PartialEq, Eq)]
pub enum AppendError {
    Declined(Refusal),
    DeclinedAt(Fault),
    Damaged(Fault),
}

// Document 01's survey of the journal of a length in a slice.
pub fn scan(v: &[u8], len: usize) -> Status
    ensures { meaning result ≡ scan_of plain v.now len }
{
    scan_by(v, len, Rule::Plain)
}

// Reading's first call: the bytes of record i, an empty part where refused.
pub fn read<'a>(v: &'a [u8], len: usize, i: usize) -> &'a [u8]
    ensures { result.now ≡ read_part plain v.now len i }
{
    read_by(v, len, i, Rule::Plain)
}

// Where that part stands; nowhere where refused.
pub fn part_place(v: &[u8], len: usize, i: usize) -> Option<Part>
    ensures place { result ≡ place_read i (contents_of plain v.now len) }
    ensures value { place_meaning result ≡ part_place plain v.now len i }
{
    part_place_by(v, len, i, Rule::Plain)
}

// Reading's second call: the mark of record i, or the refusal.
pub fn mark(v: &[u8], len: usize, i: usize) -> Result<Mark, Refusal>
    ensures { mark_meaning result ≡ read_mark plain v.now len i }
{
    mark_by(v, len, i, Rule::Plain)
}

// Appends a record of what is offered, its limits worked out from the times. Where it answers a length that is the journal's new length,
// and the slice's bytes from the committed length on are the record's; else the length stays and no byte is changed.
pub fn append(
    v: &mut [u8],
    len: usize,
    day: u16,
    name: &[u8],
    chances: &[u32],
    times: &[u32],
) -> Result<usize, AppendError>
    ensures { outcome_of len result v.new
        ≡ append_of (record { slice = v.old; len = len })
        (request_of day name.now chances.now (Request.times times.now) all plain none) }
{
    let all = Asked {
        day,
        budget: Budget::All,
        rule: Rule::Plain,
    };
    append_with(v, len, name, chances, times, all)
}

// Document 01's call with k, a call of its own beside append: after append's checks it stops when `budget` bytes of the record are written.
// A budget beyond the record is all of it.
pub fn append_upto(
    v: &mut [u8],
    len: usize,
    day: u16,
    name: &[u8],
    chances: &[u32],
    times: &[u32],
    budget: usize,
) -> Result<usize, AppendError>
    ensures { outcome_of len result v.new
        ≡ append_of (record { slice = v.old; len = len })
        (request_of day name.now chances.now (Request.times times.now) (up_to budget) plain none) }
{
    let cut = Asked {
        day,
        budget: Budget::UpTo(budget),
        rule: Rule::Plain,
    };
    append_with(v, len, name, chances, times, cut)
}
