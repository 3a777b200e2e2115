// The band around the mean with a share of links inside, as document 02's 2026-11 fixes it, and its refusals.
// Mean and spread are the limit's, under the sample divisor.
#![tactic(auto)]

ghost use Rattle.std.specs.Prelude.{◌≡◌};
ghost use Rattle.band.specs.Answer.{meaning};
ghost use Rattle.band.specs.Band.{band_of, share_in_range};

use limit::SAMPLE_FORM;
use refusals::Refusal;

mod formula;

// The least and the greatest share, in a million.
pub const MIN_SHARE: u32 = 1;

pub const MAX_SHARE: u32 = 999_999;

// The shortest and the longest time, in ticks.
#[derive(Clone, Copy)]
pub struct Ends {
    pub low: f64,
    pub high: f64,
}

// The band of the times with a share in a million inside.
pub fn band(times: &[u32], share: u32) -> Result<Ends, Refusal>
    ensures { meaning result ≡ band_of times.now share }
{
    if !share_in_range(share) {
        return Err(Refusal::Share);
    }
    let moments = limit::moments_of_times(SAMPLE_FORM, times)?;
    Ok(formula::ends_at(moments, share))
}

fn share_in_range(share: u32) -> bool
    ensures { result ≡ share_in_range share }
{
    (MIN_SHARE..=MAX_SHARE).contains(&share)
}
