// The rule by which a journal is read and extended: any record, or those of request 2026-14's profile for safety controllers: form 2,
// the chances 1, 10, 100 and 1,000 exactly, and at least 32 times.
ghost use Rattle.std.specs.Prelude.{◌≡◌, ◌&&◌, List, [], ◌∷◌, ℕ, ◌+◌, ◌*◌, ◌≤◌, leb, eqb, length};
ghost use Rattle.limit.specs.Formula.{sample_form};
ghost use Rattle.journal_spec.specs.Tests.{same};
ghost use Rattle.journal_spec.specs.Profile.{profile_chances, profile_times};
ghost use Rattle.journal.specs.Handed.{as_rule, kept_by};
ghost use Rattle.journal.specs.Records.{Stands};

use journal_parts::number_at;
use limit::SAMPLE_FORM;

// Any record may stand, or the profile's alone.
#[derive(Clone, Copy)]
pub enum Rule {
    Plain,
    Profile,
}

// The least number of times.
const PROFILE_TIMES: u64 = 32;

// How many chances there are.
const PROFILE_CHANCES: usize = 4;

// Whether a record keeps a rule, by whether it is one of the profile's.
pub(crate) fn kept_by(rule: Rule, in_profile: bool) -> bool
    ensures { result ≡ kept_by (as_rule rule) in_profile }
{
    match rule {
        Rule::Plain => true,
        Rule::Profile => in_profile,
    }
}

// Whether a record is one of the profile's: its form, n chances that stand from a place on, and so many times.
pub(crate) fn record_in_profile(b: &[u8], form: u64, chances: usize, n: u64, times: u64) -> bool
    requires { chances + n * 4 ≤ length b.now }
    ensures { (list : List ℕ) → Stands b.now chances n list
        → result ≡ eqb form sample_form && same list profile_chances && leb profile_times times }
{
    if form != SAMPLE_FORM || n != PROFILE_CHANCES as u64 || times < PROFILE_TIMES {
        return false;
    }
    let first = number_at(b, chances, 4);
    let second = number_at(b, chances + 4, 4);
    let third = number_at(b, chances + 8, 4);
    let fourth = number_at(b, chances + 12, 4);
    are_profile(first, second, third, fourth)
}

// Whether chances and so many times that are offered are those of a record of the profile.
pub(crate) fn offer_in_profile(chances: &[u32], times: u64) -> bool
    ensures { result ≡ same chances.now profile_chances && leb profile_times times }
{
    if chances.len() != PROFILE_CHANCES {
        return false;
    }
    if times < PROFILE_TIMES {
        return false;
    }
    are_profile(
        chances[0] as u64,
        chances[1] as u64,
        chances[2] as u64,
        chances[3] as u64,
    )
}

// Whether four chances are the profile's.
fn are_profile(first: u64, second: u64, third: u64, fourth: u64) -> bool
    ensures { result ≡ same (first ∷ second ∷ third ∷ fourth ∷ []) profile_chances }
{
    if first != 1 || second != 10 || third != 100 {
        return false;
    }
    fourth == 1000
}
