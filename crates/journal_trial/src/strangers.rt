// The call for unknown names (request 2026-12): how many lines of the log have a name that is not indexed.
// Its refusals are those of the call for an entry, but for 10.
ghost use Rattle.std.specs.Prelude.{◌≡◌};
ghost use Rattle.journal_trial_spec.specs.Trial.{try_unknown};
ghost use Rattle.journal_trial.specs.Answers.{meaning};
ghost use Rattle.journal_trial.specs.Strangers.{unknown_by};

use crate::adding::add_here;
use crate::answer::TrialError;

// The lines with unknown names. What the positions have is added to a number that nobody reads.
pub fn try_unknown(log: &[u8], v: &[u8], len: usize, index: &[u8]) -> Result<u64, TrialError>
    ensures { meaning result ≡ unknown_by (try_unknown log.now v.now len index.now) }
{
    let mut unread: [u64; 1] = [0; 1];
    add_here(log, v, len, index, &mut unread)
}
