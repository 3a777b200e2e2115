// The trial of a recorded log (request 2026-12): the call for an entry of the index, with its answer in twelve words, and the call for unknown names,
// in three. `log` is all of the log, `v` the slice, `len` the journal's length in it, `index` the buffer with the index at its front.
ghost use Rattle.std.specs.Prelude.{◌≡◌};
ghost use mathlib.Core.List.{[], ◌∷◌, ◌++◌, replicate};
ghost use Rattle.journal_trial_spec.specs.Trial.{try_entry, try_unknown};
ghost use Rattle.journal_trial.specs.Answers.{refusal_of, meaning};
ghost use Rattle.capi.specs.Trial.{refusal_words, trial_words, words_of, unknown_words, words_of_unknown};

use journal::Fault;
use journal_trial::{Trial, TrialError};

pub fn journal_trial(
    log: &[u8],
    v: &[u8],
    len: usize,
    index: &[u8],
    position: usize,
    out: &mut [u64; 12],
)
    ensures { out.new ≡ trial_words (try_entry log.now v.now len index.now position) }
{
    let t = journal_trial::try_entry(log, v, len, index, position);
    put_trial(t, out);
}

pub fn journal_trial_unknown(log: &[u8], v: &[u8], len: usize, index: &[u8], out: &mut [u64; 3])
    ensures { out.new ≡ unknown_words (try_unknown log.now v.now len index.now) }
{
    let u = journal_trial::try_unknown(log, v, len, index);
    put_unknown(u, out);
}

// 0, the links, how many chances there are, the lowest that was exceeded or 0, and the overs by chance; or a refusal.
#[tactic(auto, unfolding(crate::specs::Trial::words_of, journal_trial::specs::Counting::eight))]
fn put_trial(t: Result<Trial, TrialError>, out: &mut [u64; 12])
    ensures { out.new ≡ words_of (meaning t) }
{
    match t {
        Ok(trial) => {
            let links = trial.links;
            let count = trial.chances as u64;
            let lowest = trial.lowest.unwrap_or(0);
            let o = trial.overs;
            *out = [
                0, links, count, lowest, o[0], o[1], o[2], o[3], o[4], o[5], o[6], o[7],
            ];
        }
        Err(e) => put_refusal(e, out),
    }
}

// The three words of a refusal, and 0 behind them.
fn put_refusal(e: TrialError, out: &mut [u64; 12])
    ensures { out.new ≡ refusal_words (refusal_of e) ++ replicate 9 0 }
{
    let (kind, number, place) = refusal_words(e);
    *out = [kind, number, place, 0, 0, 0, 0, 0, 0, 0, 0, 0];
}

// 1 and the number by which it is declined; 2, with the fault's number and place; or 3, 11 and the place in the log.
#[tactic(auto, unfolding(crate::specs::Trial::refusal_words))]
fn refusal_words(e: TrialError) -> (u64, u64, u64)
    ensures { result.0 ∷ result.1 ∷ result.2 ∷ [] ≡ refusal_words (refusal_of e) }
{
    match e {
        TrialError::Declined(r) => (1, u64::from(r.number()), 0),
        TrialError::Damaged(Fault { refusal: r, place }) => (
            2,
            u64::from(r.number()),
            place as u64,
        ),
        TrialError::DeclinedAt(Fault { refusal: r, place }) => (
            3,
            u64::from(r.number()),
            place as u64,
        ),
    }
}

// 0 and the lines; else as above.
#[tactic(auto, unfolding(crate::specs::Trial::words_of_unknown))]
fn put_unknown(u: Result<u64, TrialError>, out: &mut [u64; 3])
    ensures { out.new ≡ words_of_unknown (meaning u) }
{
    match u {
        Ok(n) => *out = [0, n, 0],
        Err(e) => {
            let (kind, number, place) = refusal_words(e);
            *out = [kind, number, place];
        }
    }
}
