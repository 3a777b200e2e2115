// The trial of the record at a place of a journal: its parts are found by its counts, and its limits tried on the links of its name.
// What the calls answer, with the order of refusals: a line of the log that is refused comes before everything else.
ghost use Rattle.std.specs.Prelude.{◌≡◌};
ghost use Rattle.journal_spec.specs.Record.{Record};
ghost use Rattle.journal_trial_spec.specs.Links.{log_of};
ghost use Rattle.journal_trial.specs.Lowest.{ChancesIn};
ghost use Rattle.journal_trial.specs.Answers.{Tryable, of_index, meaning, refusal_of, refused_first, line_refused, record_tried};

use crate::counting::{Counts, count_links};
use crate::lowest::lowest;
use journal::Fault;
use journal_index::IndexError;
use journal_parts::{part_of, spans_at};
use refusals::Refusal;

// Why nothing is tried: the index is another's, or has no such position; the journal's fault; or a line of the log, with its place.
#[derive(Clone, Copy)]
pub enum TrialError {
    Declined(Refusal),
    Damaged(Fault),
    DeclinedAt(Fault),
}

impl From<IndexError> for TrialError {
    ghost from_gives = { λ error made. made ≡ of_index error };

    fn from(error: IndexError) -> TrialError {
        match error {
            IndexError::Declined(refusal) => TrialError::Declined(refusal),
            IndexError::Damaged(fault) => TrialError::Damaged(fault),
        }
    }
}

// The links, how many chances there are, the lowest that was overrun, and the overs at each chance, 0 where there is none.
#[derive(Clone, Copy)]
pub struct Trial {
    pub links: u64,
    pub chances: usize,
    pub lowest: Option<u64>,
    pub overs: [u64; 8],
}

// The trial of the record at a place.
pub(crate) fn try_record(log: &[u8], v: &[u8], at: usize) -> Result<Trial, TrialError>
    requires { Tryable v.now at }
    ensures { meaning result ≡ record_tried v.now at (log_of log.now) }
{
    let s = spans_at(v, at);
    let chances = part_of(v, s.chances);
    let Counts { links, overs } = count_links(log, part_of(v, s.name), part_of(v, s.limits))?;
    Ok(Trial {
        links,
        chances: s.chances.map_or(0, |c| c.count),
        lowest: lowest(links, chances, &overs),
        overs,
    })
}

// A refusal, unless a line of the log is refused.
pub(crate) fn refused(log: &[u8], error: TrialError) -> TrialError
    ensures { refusal_of result ≡ refused_first (log_of log.now) (refusal_of error) }
{
    match count_links(log, b"", b"") {
        Ok(_) => error,
        Err(line) => line,
    }
}

// That a line of the log is refused, at its place.
pub(crate) fn line_refused(place: usize) -> TrialError
    ensures { refusal_of result ≡ line_refused place }
{
    TrialError::DeclinedAt(Fault {
        refusal: Refusal::Line,
        place,
    })
}
