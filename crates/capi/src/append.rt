// Append and the call with a budget, an append cut after so many bytes, of times or through the build server's log (request 2026-01). The last two
// also take an index in a buffer of its own (request 2026-08), and options: whether it is handed, and by which rule (request 2026-14).
// `v` is the slice, `len` the journal's length in it, `log` all of the log; each has its answer in three words.
ghost use Rattle.std.specs.Prelude.{◌≡◌};
ghost use Rattle.std.proofs.Math.Option.{none};
ghost use Rattle.journal_spec.specs.Profile.{plain};
ghost use Rattle.journal_spec.specs.Request.{all, up_to, request_of};
ghost use Rattle.journal_spec.specs.Request as Request;
ghost use Rattle.journal_spec.specs.Append.{append_of};
ghost use Rattle.journal.specs.Handed.{as_budget, as_rule};
ghost use Rattle.journal.specs.Answers.{append_meaning};
ghost use Rattle.capi.specs.Append.{append_words, rule_of, handed_by, left_in};

use journal::{AppendError, Asked, Budget, Fault, Rule};
use journal_index::{append_beside, append_log_beside};

pub fn journal_append(
    v: &mut [u8],
    len: usize,
    day: u16,
    name: &[u8],
    chances: &[u32],
    times: &[u32],
    out: &mut [u64; 3],
)
    ensures v_after { v.new ≡ (append_of (record { slice = v.old; len = len })
        (request_of day name.now chances.now (Request.times times.now) all plain none)).journal.slice }
    ensures out_after { out.new ≡ append_words (append_of (record { slice = v.old; len = len })
        (request_of day name.now chances.now (Request.times times.now) all plain none)).answer }
{
    let a = journal::append(v, len, day, name, chances, times);
    put_words(a, out);
}

pub fn journal_append_upto(
    v: &mut [u8],
    len: usize,
    day: u16,
    name: &[u8],
    chances: &[u32],
    times: &[u32],
    budget: usize,
    out: &mut [u64; 3],
)
    ensures v_after { v.new ≡ (append_of (record { slice = v.old; len = len })
        (request_of day name.now chances.now (Request.times times.now) (up_to budget) plain none)).journal.slice }
    ensures out_after { out.new ≡ append_words (append_of (record { slice = v.old; len = len })
        (request_of day name.now chances.now (Request.times times.now) (up_to budget) plain none)).answer }
{
    let a = journal::append_upto(v, len, day, name, chances, times, budget);
    put_words(a, out);
}

pub fn journal_append_log(
    v: &mut [u8],
    len: usize,
    day: u16,
    name: &[u8],
    chances: &[u32],
    log: &[u8],
    out: &mut [u64; 3],
)
    ensures v_after { v.new ≡ (append_of (record { slice = v.old; len = len })
        (request_of day name.now chances.now (Request.log log.now) all plain none)).journal.slice }
    ensures out_after { out.new ≡ append_words (append_of (record { slice = v.old; len = len })
        (request_of day name.now chances.now (Request.log log.now) all plain none)).answer }
{
    let a = journal::append_log(v, len, day, name, chances, log);
    put_words(a, out);
}

pub fn journal_append_log_upto(
    v: &mut [u8],
    len: usize,
    day: u16,
    name: &[u8],
    chances: &[u32],
    log: &[u8],
    budget: usize,
    out: &mut [u64; 3],
)
    ensures v_after { v.new ≡ (append_of (record { slice = v.old; len = len })
        (request_of day name.now chances.now (Request.log log.now) (up_to budget) plain none)).journal.slice }
    ensures out_after { out.new ≡ append_words (append_of (record { slice = v.old; len = len })
        (request_of day name.now chances.now (Request.log log.now) (up_to budget) plain none)).answer }
{
    let a = journal::append_log_upto(v, len, day, name, chances, log, budget);
    put_words(a, out);
}

pub fn journal_append_with(
    v: &mut [u8],
    len: usize,
    day: u16,
    name: &[u8],
    chances: &[u32],
    times: &[u32],
    budget: usize,
    index: &mut [u8],
    options: u32,
    out: &mut [u64; 3],
)
    ensures v_after { v.new ≡ (append_of (record { slice = v.old; len = len })
        (request_of day name.now chances.now (Request.times times.now) (up_to budget) (rule_of options) (handed_by options index.old))).journal.slice }
    ensures index_after { index.new ≡ left_in index.old (append_of (record { slice = v.old; len = len })
        (request_of day name.now chances.now (Request.times times.now) (up_to budget) (rule_of options) (handed_by options index.old))).index }
    ensures out_after { out.new ≡ append_words (append_of (record { slice = v.old; len = len })
        (request_of day name.now chances.now (Request.times times.now) (up_to budget) (rule_of options) (handed_by options index.old))).answer }
{
    let asked = asked_by(day, budget, options);
    let indexed = options % 2 == 1;
    let a = append_beside(v, len, name, chances, times, index, indexed, asked);
    put_words(a, out);
}

pub fn journal_append_log_with(
    v: &mut [u8],
    len: usize,
    day: u16,
    name: &[u8],
    chances: &[u32],
    log: &[u8],
    budget: usize,
    index: &mut [u8],
    options: u32,
    out: &mut [u64; 3],
)
    ensures v_after { v.new ≡ (append_of (record { slice = v.old; len = len })
        (request_of day name.now chances.now (Request.log log.now) (up_to budget) (rule_of options) (handed_by options index.old))).journal.slice }
    ensures index_after { index.new ≡ left_in index.old (append_of (record { slice = v.old; len = len })
        (request_of day name.now chances.now (Request.log log.now) (up_to budget) (rule_of options) (handed_by options index.old))).index }
    ensures out_after { out.new ≡ append_words (append_of (record { slice = v.old; len = len })
        (request_of day name.now chances.now (Request.log log.now) (up_to budget) (rule_of options) (handed_by options index.old))).answer }
{
    let asked = asked_by(day, budget, options);
    let indexed = options % 2 == 1;
    let a = append_log_beside(v, len, name, chances, log, index, indexed, asked);
    put_words(a, out);
}

// What a call asks for by its options.
#[tactic(auto, unfolding(journal::specs::Handed::as_budget))]
fn asked_by(day: u16, budget: usize, options: u32) -> Asked
    ensures { (result.day ≡ day) × (as_budget result.budget ≡ up_to budget) × (as_rule result.rule ≡ rule_of options) }
{
    Asked {
        day,
        budget: Budget::UpTo(budget),
        rule: rule_of(options),
    }
}

// The profile where the options have the 2 in them.
#[tactic(auto, unfolding(crate::specs::Append::rule_of, journal::specs::Handed::as_rule))]
fn rule_of(options: u32) -> Rule
    ensures { as_rule result ≡ rule_of options }
{
    if options / 2 % 2 == 1 {
        Rule::Profile
    } else {
        Rule::Plain
    }
}

// 0 and the journal's length after the call; 1 and the number by which it is declined; 2, with the fault's number and place; or 3, with the
// number by which a line of the log is refused and its place in the log.
#[tactic(auto, unfolding(crate::specs::Append::append_words, journal::specs::Answers::append_meaning))]
fn put_words(a: Result<usize, AppendError>, out: &mut [u64; 3])
    ensures { out.new ≡ append_words (append_meaning a) }
{
    match a {
        Ok(n) => *out = [0, n as u64, 0],
        Err(AppendError::Declined(r)) => *out = [1, u64::from(r.number()), 0],
        Err(AppendError::DeclinedAt(Fault { refusal: r, place })) => {
            *out = [3, u64::from(r.number()), place as u64];
        }
        Err(AppendError::Damaged(Fault { refusal: r, place })) => {
            *out = [2, u64::from(r.number()), place as u64];
        }
    }
}
