// A record, document 01's leaf, read at a place in one pass: form, day, name, chances, times and limits in byte order.
// Each part is a function that reads its own fields and goes on to the next part.
ghost use Rattle.std.specs.Prelude.{◌≡◌, true, List, ℕ, ◌+◌, ◌*◌, ◌≤◌, eqb, length, drop};
ghost use Rattle.limit.specs.Times.{times_in_range};
ghost use Rattle.limit.specs.Sums.{sums_of, is_plausible};
ghost use Rattle.journal_spec.specs.Reader.{run};
ghost use Rattle.journal_spec.specs.Stages.{day_stage, name_stage, chance_stage, time_stage, limit_stage};
ghost use Rattle.journal.specs.Told.{told};
ghost use Rattle.journal.specs.Records.{as_last, record_read, record_at, record_by, Stands};

use crate::Fault;
use crate::field::{Stop, field_at};
use crate::limits::limit_section_at;
use crate::profile::{Rule, kept_by, record_in_profile};
use crate::quantiles::Known;
use crate::section::{SectionRule, section_at};
use limit::sums::{MAX_COUNT, MAX_TICKS, MIN_COUNT, MIN_TICKS, Sums};
use limit::{MAX_CHANCE, MIN_CHANCE, PLAIN_FORM, SAMPLE_FORM};
use refusals::Refusal;

// The most chances of a record, which has as many limits.
pub const MAX_CHANCES: usize = 8;

// The greatest day.
pub const MAX_DAY: u64 = 65_535;

// The name: 1 to 32 bytes, each 21 to 7e.
pub(crate) const NAME: SectionRule = SectionRule {
    least: 1,
    most: 32,
    low: 0x21,
    high: 0x7e,
    rising: false,
    refusal: Refusal::Name,
};

// The chances: 1 to 8, in range, rising strictly.
pub(crate) const CHANCES: SectionRule = SectionRule {
    least: 1,
    most: 8,
    low: MIN_CHANCE,
    high: MAX_CHANCE,
    rising: true,
    refusal: Refusal::Chance,
};

// The times: 2 to 128, in range.
const TIMES: SectionRule = SectionRule {
    least: MIN_COUNT,
    most: MAX_COUNT,
    low: MIN_TICKS,
    high: MAX_TICKS,
    rising: false,
    refusal: Refusal::Times,
};

// Form and day of a record: what the reader of the next record knows of it.
#[derive(Clone, Copy)]
pub struct Head {
    pub form: u64,
    pub day: u64,
}

// A record that was read: the place after it, its form and day, whether its times are all equal, how many they are, and whether it is one
// of the profile's.
#[derive(Clone, Copy)]
pub(crate) struct Entry {
    pub next: usize,
    pub form: u64,
    pub day: u64,
    pub flat: bool,
    pub times: u64,
    pub in_profile: bool,
}

// The record at a place by a rule: one that is whole and breaks the rule is refused at its first byte. What is torn is not judged by it.
#[tactic(auto, using(crate::proofs::InProfile::halted_stays), unfolding(crate::specs::Records::record_by, journal_spec::specs::Scan::record_at, crate::specs::Records::record_at))]
pub(crate) fn record_by(
    b: &[u8],
    at: usize,
    last: Head,
    rule: Rule,
    kept: &mut [Known; MAX_CHANCES],
) -> Result<Entry, Stop>
    requires { at ≤ length b.now }
    ensures { told result ≡ record_by rule last at b.now }
{
    let e = record_at(b, at, last, kept)?;
    if kept_by(rule, e.in_profile) {
        return Ok(e);
    }
    Err(Stop::Refused(Fault {
        refusal: Refusal::Profile,
        place: at,
    }))
}

// The record at a place, after the record `last`. Its form is judged whole before its day: that there is such a form, then that forms
// do not fall.
fn record_at(
    b: &[u8],
    at: usize,
    last: Head,
    kept: &mut [Known; MAX_CHANCES],
) -> Result<Entry, Stop>
    requires { at ≤ length b.now }
    ensures { told result ≡ record_at last at b.now }
{
    let form = field_at(b, at, 2, PLAIN_FORM, SAMPLE_FORM, Refusal::Form)?;
    if form < last.form {
        return Err(Stop::Refused(Fault {
            refusal: Refusal::OldForm,
            place: at,
        }));
    }
    day_part(b, at + 2, last, form, kept)
}

// The record from its day on.
fn day_part(
    b: &[u8],
    at: usize,
    last: Head,
    form: u64,
    kept: &mut [Known; MAX_CHANCES],
) -> Result<Entry, Stop>
    requires { at ≤ length b.now }
    ensures { told result ≡ record_read (run (day_stage (as_last last) form) at (drop at b.now)) }
{
    let day = field_at(b, at, 2, last.day, MAX_DAY, Refusal::Day)?;
    name_part(b, at + 2, Head { form, day }, kept)
}

// The record from its name on.
fn name_part(
    b: &[u8],
    at: usize,
    head: Head,
    kept: &mut [Known; MAX_CHANCES],
) -> Result<Entry, Stop>
    requires { at ≤ length b.now }
    ensures { told result ≡ record_read (run (name_stage head.form head.day) at (drop at b.now)) }
{
    let name = section_at(b, at, 1, NAME)?;
    chances_part(b, name.next, head, kept)
}

// The record from its chances on. Their place and number are handed on, since each limit is worked out at its chance.
fn chances_part(
    b: &[u8],
    at: usize,
    head: Head,
    kept: &mut [Known; MAX_CHANCES],
) -> Result<Entry, Stop>
    requires { at ≤ length b.now }
    ensures { (name : List ℕ) → told result ≡ record_read (run (chance_stage head.form head.day name) at (drop at b.now)) }
{
    let chances = section_at(b, at, 4, CHANCES)?;
    times_part(b, chances.next, head, at + 2, chances.sums.count, kept)
}

// The record from its times on, with n chances from a place on.
fn times_part(
    b: &[u8],
    at: usize,
    head: Head,
    chances: usize,
    n: u64,
    kept: &mut [Known; MAX_CHANCES],
) -> Result<Entry, Stop>
    requires { (at ≤ length b.now) × (chances + n * 4 ≤ length b.now) }
    ensures { (name list : List ℕ) → Stands b.now chances n list
        → told result ≡ record_read (run (time_stage head.form head.day name list) at (drop at b.now)) }
{
    let times = section_at(b, at, 4, TIMES)?;
    limits_part(b, times.next, head, chances, n, times.sums, kept)
}

// The record from its limits on, with the sums of its times: mean and spread are worked out once.
fn limits_part(
    b: &[u8],
    at: usize,
    head: Head,
    chances: usize,
    n: u64,
    sums: Sums,
    kept: &mut [Known; MAX_CHANCES],
) -> Result<Entry, Stop>
    requires { (at ≤ length b.now) × (chances + n * 4 ≤ length b.now) × (is_plausible sums ≡ true) }
    ensures { (name list times : List ℕ) → Stands b.now chances n list → times_in_range times ≡ true → sums ≡ sums_of times
        → told result ≡ record_read (run (limit_stage head.form head.day name list times) at (drop at b.now)) }
{
    let form = head.form;
    let day = head.day;
    let flat = flat_by(sums);
    let times = sums.count;
    let in_profile = record_in_profile(b, form, chances, n, times);
    let worked = limit::moments_of_sums(form, sums);
    let next = limit_section_at(b, at, n, chances, worked, kept)?;
    Ok(Entry {
        next,
        form,
        day,
        flat,
        times,
        in_profile,
    })
}

// Whether times with these sums are all equal: exactly then document 01's D is 0.
fn flat_by(s: Sums) -> bool
    requires { is_plausible s ≡ true }
    ensures { result ≡ eqb (s.count * s.squares) (s.sum * s.sum) }
{
    s.count * s.squares == s.sum * s.sum
}
