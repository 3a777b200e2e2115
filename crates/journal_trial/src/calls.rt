// The call for one entry of the index (request 2026-12), by its position from 0: its trial on the log, or a refusal, 11, scan's, 14 and 10 in
// that order. The log is read whatever the journal and the index are, since 11 comes first.
ghost use Rattle.std.specs.Prelude.{◌≡◌};
ghost use Rattle.journal_trial_spec.specs.Trial.{try_entry};
ghost use Rattle.journal_trial.specs.Answers.{meaning, answered_by, start_of};
ghost use Rattle.journal_trial.specs.Owning.{Owned};

use crate::answer::{Trial, TrialError, refused, try_record};
use crate::positions::start_at;
use journal_entries::entry_place;
use journal_index::check_index;
use journal_parts::number_in;
use refusals::Refusal;

// The trial at a position of the index.
pub fn try_entry(
    log: &[u8],
    v: &[u8],
    len: usize,
    index: &[u8],
    position: usize,
) -> Result<Trial, TrialError>
    ensures { meaning result ≡ answered_by (try_entry log.now v.now len index.now position) }
{
    match check_index(v, len, index) {
        Ok(()) => own_trial(log, v, len, index, position),
        Err(error) => Err(refused(log, TrialError::from(error))),
    }
}

// The same with the journal's own index.
fn own_trial(
    log: &[u8],
    v: &[u8],
    len: usize,
    index: &[u8],
    position: usize,
) -> Result<Trial, TrialError>
    requires { Owned v.now len index.now }
    ensures { meaning result ≡ answered_by (try_entry log.now v.now len index.now position) }
{
    let count = number_in(index, 0, 2) as usize;
    if count <= position {
        return Err(refused(log, TrialError::Declined(Refusal::Absent)));
    }
    try_record(log, v, record_start(index, position))
}

// Where the record of the entry at a position starts.
fn record_start(index: &[u8], position: usize) -> usize
    ensures { result ≡ start_of index.now position }
{
    start_at(index, entry_place(index, position))
}
