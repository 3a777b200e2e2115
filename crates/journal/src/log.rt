// Every append through a log: the log is read first, and its times go to the append of times.
// A line that is refused is answered before the journal is looked at.
ghost use Rattle.std.specs.Prelude.{◌≡◌};
ghost use Rattle.std.proofs.Math.Option.{none};
ghost use Rattle.journal_spec.specs.Profile.{plain};
ghost use Rattle.journal_spec.specs.Request.{all, up_to, request_of};
ghost use Rattle.journal_spec.specs.Request as Request;
ghost use Rattle.journal_spec.specs.Append.{append_of};
ghost use Rattle.journal.specs.Handed.{request_by};
ghost use Rattle.journal.specs.Answers.{outcome_of};

use crate::extend::{Asked, Budget, append_with};
use crate::profile::Rule;
use crate::{AppendError, Fault};

// Request 2026-01: append with the times of the name in a build server's log, in file order. A line of the log that is refused is judged
// before the journal; else it ends as `append` of those times does.
pub fn append_log(
    v: &mut [u8],
    len: usize,
    day: u16,
    name: &[u8],
    chances: &[u32],
    log: &[u8],
) -> Result<usize, AppendError>
    ensures { outcome_of len result v.new
        ≡ append_of (record { slice = v.old; len = len })
        (request_of day name.now chances.now (Request.log log.now) all plain none) }
{
    let all = Asked {
        day,
        budget: Budget::All,
        rule: Rule::Plain,
    };
    append_log_with(v, len, name, chances, log, all)
}

// The same with document 01's k.
pub fn append_log_upto(
    v: &mut [u8],
    len: usize,
    day: u16,
    name: &[u8],
    chances: &[u32],
    log: &[u8],
    budget: usize,
) -> Result<usize, AppendError>
    ensures { outcome_of len result v.new
        ≡ append_of (record { slice = v.old; len = len })
        (request_of day name.now chances.now (Request.log log.now) (up_to budget) plain none) }
{
    let cut = Asked {
        day,
        budget: Budget::UpTo(budget),
        rule: Rule::Plain,
    };
    append_log_with(v, len, name, chances, log, cut)
}

// The append of the times of the name in a log.
pub fn append_log_with(
    v: &mut [u8],
    len: usize,
    name: &[u8],
    chances: &[u32],
    log: &[u8],
    asked: Asked,
) -> Result<usize, AppendError>
    ensures { outcome_of len result v.new ≡ append_of (record { slice = v.old; len = len })
        (request_by asked name.now chances.now (Request.log log.now) none) }
{
    let g = journal_log::gather(name, log);
    match g.times() {
        Ok(times) => append_with(v, len, name, chances, times, asked),
        Err(misread) => Err(AppendError::DeclinedAt(Fault {
            refusal: misread.refusal,
            place: misread.place,
        })),
    }
}
