// Append through a log that may be handed the index (requests 2026-01 and 2026-08): the log is read first, and its times go to the append of times.
// A line that is refused is answered before the journal and the index are looked at.
ghost use Rattle.std.specs.Prelude.{◌≡◌, false};
ghost use Rattle.journal_spec.specs.Request as Request;
ghost use Rattle.journal_spec.specs.Append.{append_of};
ghost use Rattle.journal.specs.Handed.{request_by};
ghost use Rattle.journal.specs.Answers.{outcome_with};
ghost use Rattle.journal_index.specs.Outcome.{handed};

use crate::append::append_beside;
use journal::{AppendError, Asked, Fault};

// The append of the times of the name in a log, with an index in a buffer of its own or without one.
pub fn append_log_beside(
    v: &mut [u8],
    len: usize,
    name: &[u8],
    chances: &[u32],
    log: &[u8],
    index: &mut [u8],
    indexed: bool,
    asked: Asked,
) -> Result<usize, AppendError>
    ensures index_after { outcome_with len result v.new (handed indexed index.new)
        ≡ append_of (record { slice = v.old; len = len })
        (request_by asked name.now chances.now (Request.log log.now) (handed indexed index.old)) }
    ensures index_unchanged { indexed ≡ false → index.new ≡ index.old }
{
    let g = journal_log::gather(name, log);
    match g.times() {
        Ok(times) => append_beside(v, len, name, chances, times, index, indexed, asked),
        Err(misread) => Err(AppendError::DeclinedAt(Fault {
            refusal: misread.refusal,
            place: misread.place,
        })),
    }
}
