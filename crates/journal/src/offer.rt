// The check of an offered record, in the papers' order: 3, 4, 5, 17, 6, 19.
// Where there is none the limits are worked out, for the writer.
ghost use Rattle.std.specs.Prelude.{◌≡◌, ◌≤◌, ◌<◌, length, take};
ghost use Rattle.limit.specs.Answer.{moments_meaning};
ghost use Rattle.limit.specs.Limit.{limit_of_moments};
ghost use Rattle.journal_spec.specs.Refusals.{outside};
ghost use Rattle.journal_spec.specs.Section.{section_refusal};
ghost use Rattle.journal_spec.specs.Record.{name_section, chance_section, max_chances};
ghost use Rattle.journal_spec.specs.Append.{judge_even, limit_bits};
ghost use Rattle.refusals.specs.Refusals.{number_of};
ghost use Rattle.journal.specs.Records.{as_last};
ghost use Rattle.journal.specs.Told.{Judged};
ghost use Rattle.journal.specs.Handed.{as_rule, offer_from, limits_from, RuleChecked, OfferChecked};

use crate::profile::{Rule, kept_by, offer_in_profile};
use crate::record::{CHANCES, Head, NAME};
use limit::sums::{Sums, gather};
use limit::{Moments, SAMPLE_FORM};
use refusals::Refusal;

// The greatest chance of an offer, which is an even one.
const EVEN_CHANCE: u32 = 500_000;

// A record that is offered: document 01's leaf without its limits.
#[derive(Clone, Copy)]
pub(crate) struct Offer<'a> {
    pub day: u16,
    pub name: &'a [u8],
    pub chances: &'a [u32],
    pub times: &'a [u32],
}

// The refusal of the offer after the record `last`; where there is none, the limits' bits stand first in `bits`.
pub(crate) fn offer_refusal(
    last: Head,
    offer: &Offer,
    rule: Rule,
    bits: &mut [u64],
) -> Result<(), Refusal>
    requires { length bits.old ≡ max_chances }
    ensures { OfferChecked (as_rule rule) (as_last last) (offer_from offer.now.day offer.now.name.now offer.now.chances.now offer.now.times.now)
        result bits.new }
{
    let Offer {
        day,
        name,
        chances,
        times,
    } = *offer;
    if (day as u64) < last.day {
        return Err(Refusal::Day);
    }
    name_refusal(name)?;
    chances_refusal(chances)?;
    even_refusal(chances)?;
    // An arm for each answer and no `?`: so that a wrong program can answer the times by another number.
    match gather(times) {
        Ok(sums) => rule_refusal(sums, chances, rule, bits),
        Err(refusal) => Err(refusal),
    }
}

// The refusal of a name: its count, then its bytes.
fn name_refusal(name: &[u8]) -> Result<(), Refusal>
    ensures { Judged result (section_refusal name_section name.now) }
{
    range_refusal(NAME.least, NAME.most, NAME.refusal, name.len() as u64)?;
    for b in name {
        range_refusal(NAME.low, NAME.high, NAME.refusal, *b as u64)?;
    }
    Ok(())
}

// The refusal of the chances: their count, then each, whose least value is the one above the chance before it.
fn chances_refusal(chances: &[u32]) -> Result<(), Refusal>
    ensures { Judged result (section_refusal chance_section chances.now) }
{
    range_refusal(
        CHANCES.least,
        CHANCES.most,
        CHANCES.refusal,
        chances.len() as u64,
    )?;
    let mut low = CHANCES.low;
    for chance in chances {
        let c = *chance as u64;
        range_refusal(low, CHANCES.high, CHANCES.refusal, c)?;
        low = c + 1;
    }
    Ok(())
}

// The refusal of a chance beyond even, of chances that rise: the last is the greatest.
fn even_refusal(chances: &[u32]) -> Result<(), Refusal>
    ensures { Judged result (judge_even chances.now) }
{
    match chances {
        [.., last] if EVEN_CHANCE < *last => Err(Refusal::Even),
        _ => Ok(()),
    }
}

// The refusal of a number outside low to high.
fn range_refusal(low: u64, high: u64, refusal: Refusal, x: u64) -> Result<(), Refusal>
    requires { 0 < number_of refusal }
    ensures { Judged result (outside low high (number_of refusal) x) }
{
    if x < low || high < x {
        return Err(refusal);
    }
    Ok(())
}

// The refusal of an offer whose fields are in range, by the rule. Where there is none the limits are worked out.
fn rule_refusal(sums: Sums, chances: &[u32], rule: Rule, bits: &mut [u64]) -> Result<(), Refusal>
    requires { (length chances.now ≤ max_chances) × (length bits.old ≡ max_chances) }
    ensures { RuleChecked (as_rule rule) sums chances.now result bits.new }
{
    let in_profile = offer_in_profile(chances, sums.count);
    if !kept_by(rule, in_profile) {
        return Err(Refusal::Profile);
    }
    let worked = limit::moments_of_sums(SAMPLE_FORM, sums);
    work_out(worked, chances, bits);
    Ok(())
}

// The bits of the limits at the chances, from mean and spread.
fn work_out(worked: Result<Moments, Refusal>, chances: &[u32], bits: &mut [u64])
    requires { (length chances.now ≤ max_chances) × (length bits.old ≡ max_chances) }
    ensures { take (length chances.now) bits.new ≡ limits_from (moments_meaning worked) chances.now }
{
    for (i, chance) in chances.iter().enumerate() {
        bits[i] = bits_at(worked, *chance);
    }
}

// The bits of the limit at a chance, from mean and spread.
fn bits_at(worked: Result<Moments, Refusal>, chance: u32) -> u64
    ensures { result ≡ limit_bits (limit_of_moments (moments_meaning worked) chance) }
{
    match limit::limit_of_moments(worked, chance) {
        Ok(f) => double_bits::bits_of(f.limit),
        Err(_) => 0,
    }
}
