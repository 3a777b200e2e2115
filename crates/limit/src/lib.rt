// The limit of a set of link times at a chance under a form, with mean, spread and quantile, as document 01's paragraph "Limit" and document
// 02's 2026-03 and 2026-04 fix it, and its refusals. `limit` takes the times. A caller that has summed them and asks for several chances
// works mean and spread out once, by `moments_of_sums`, and each limit from them, by `limit_of_moments`; one that asks for the same chances
// again keeps their quantiles, for `limit_of_quantile`.
#![tactic(auto)]

ghost use Rattle.std.specs.Prelude.{◌≡◌};
ghost use Rattle.limit.specs.Answer.{meaning, moments_meaning};
ghost use Rattle.limit.specs.Limit.{chance_in_range, limit_of, limit_of_moments, limit_of_quantile, moments_of_sums, moments_of_times};

use crate::forms::Form;
use crate::ranges::in_range;
use crate::sums::{Sums, gather};
use refusals::Refusal;

mod forms;
mod formula;
mod ranges;
pub mod sums;

pub use formula::quantile_of;

// The forms' numbers: document 01's, and that of the sample spread.
pub const PLAIN_FORM: u64 = 1;

pub const SAMPLE_FORM: u64 = 2;

// The least and the greatest chance, in a million.
pub const MIN_CHANCE: u64 = 1;

pub const MAX_CHANCE: u64 = 999_999;

// Mean and spread of a set of times, in ticks.
#[derive(Clone, Copy)]
pub struct Moments {
    pub mean: f64,
    pub spread: f64,
}

// Mean and spread of a set of times, and the quantile and the limit at a chance.
#[derive(Clone, Copy)]
pub struct Figures {
    pub mean: f64,
    pub spread: f64,
    pub quantile: f64,
    pub limit: f64,
}

// The limit of the times at a chance in a million, under a form, with the other figures.
#[tactic(auto, unfolding(crate::specs::Answer::meaning, crate::specs::Limit::limit_of, crate::specs::Limit::judge, crate::specs::Sums::gathered_meaning, crate::specs::Sums::gather_of))]
pub fn limit(form: u64, times: &[u32], chance: u32) -> Result<Figures, Refusal>
    ensures { meaning result ≡ limit_of form times.now chance }
{
    let form = Form::try_from(form)?;
    if !chance_in_range(chance) {
        return Err(Refusal::Chance);
    }
    let sums = gather(times)?;
    let quantile = quantile_of(chance);
    Ok(sums.moments(form).figures(quantile))
}

// Mean and spread of the times alone, under a form.
#[tactic(auto, unfolding(crate::specs::Answer::moments_meaning, crate::specs::Limit::moments_of_times, crate::specs::Sums::gathered_meaning, crate::specs::Sums::gather_of))]
pub fn moments_of_times(form: u64, times: &[u32]) -> Result<Moments, Refusal>
    ensures { moments_meaning result ≡ moments_of_times form times.now }
{
    let known = Form::try_from(form)?;
    Ok(gather(times)?.moments(known))
}

// Mean and spread under a form of times whose sums are known. Sums outside the bounds that the sums of times in range meet are refused as
// such times are.
#[tactic(auto, unfolding(crate::specs::Answer::moments_meaning, crate::specs::Limit::moments_of_sums))]
pub fn moments_of_sums(form: u64, s: Sums) -> Result<Moments, Refusal>
    ensures { moments_meaning result ≡ moments_of_sums form s }
{
    let stated = Form::try_from(form)?;
    if !s.is_plausible() {
        return Err(Refusal::Times);
    }
    Ok(s.moments(stated))
}

// The limit at a chance from mean and spread; where these were refused, that refusal.
pub fn limit_of_moments(m: Result<Moments, Refusal>, chance: u32) -> Result<Figures, Refusal>
    ensures { meaning result ≡ limit_of_moments (moments_meaning m) chance }
{
    limit_of_quantile(m, chance, quantile_of(chance))
}

// The same with a quantile that is already known: where it is that of the chance, this is the limit at the chance.
#[tactic(auto, unfolding(crate::specs::Answer::meaning, crate::specs::Answer::moments_meaning, crate::specs::Limit::limit_of_quantile))]
pub fn limit_of_quantile(
    m: Result<Moments, Refusal>,
    chance: u32,
    quantile: f64,
) -> Result<Figures, Refusal>
    ensures { meaning result ≡ limit_of_quantile (moments_meaning m) chance quantile }
{
    let moments = m?;
    if chance_in_range(chance) {
        Ok(moments.figures(quantile))
    } else {
        Err(Refusal::Chance)
    }
}

fn chance_in_range(chance: u32) -> bool
    ensures { result ≡ chance_in_range chance }
{
    in_range(MIN_CHANCE, MAX_CHANCE, chance as u64)
}
