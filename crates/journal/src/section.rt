// A section of a record: a u16 count, then so many numbers of one width, each judged after those before it.
// One loop reads the name's bytes, the chances and the times; what a section lets through is a rule by value.
ghost use Rattle.std.specs.Prelude.{◌≡◌, ◌≤◌, ◌<◌, ◌^◌, length};
ghost use Rattle.limit.specs.Times.{max_count};
ghost use Rattle.journal.specs.Told.{told};
ghost use Rattle.journal.specs.Rules.{RuleFits, least_next};
ghost use Rattle.journal.specs.Found.{section_at, numbers_at};

use crate::field::{Stop, field_at};
use limit::sums::Sums;
use refusals::Refusal;

// How many numbers there are, least and most; the range of a number; whether each is above the one before it; and the refusal.
#[derive(Clone, Copy)]
pub(crate) struct SectionRule {
    pub least: u64,
    pub most: u64,
    pub low: u64,
    pub high: u64,
    pub rising: bool,
    pub refusal: Refusal,
}

// A section that was read: the place after it and the sums of its numbers.
#[derive(Clone, Copy)]
pub(crate) struct Section {
    pub next: usize,
    pub sums: Sums,
}

// The section at a place, with numbers of so many bytes. The width stands apart from the rule, which goes by memory: so the compiler knows it
// at each call and reads the numbers without a loop over their bytes.
pub(crate) fn section_at(
    b: &[u8],
    at: usize,
    width: usize,
    rule: SectionRule,
) -> Result<Section, Stop>
    requires { (at ≤ length b.now) × (width ≤ 4) × RuleFits rule }
    ensures { told result ≡ section_at width rule at b.now }
{
    let n = field_at(b, at, 2, rule.least, rule.most, rule.refusal)?;
    numbers_at(b, at + 2, n, width, rule)
}

// The n numbers at a place. Their sums are kept while they are read, so that the limits need no second pass over the times; no step asks
// whether they still fit, since no rule lets more or greater numbers through than a record's times.
fn numbers_at(b: &[u8], at: usize, n: u64, width: usize, rule: SectionRule) -> Result<Section, Stop>
    requires { (at ≤ length b.now) × (n ≤ max_count) × (width ≤ 4) × RuleFits rule }
    ensures { told result ≡ numbers_at width rule n at b.now }
{
    let high = rule.high;
    let rising = rule.rising;
    let refusal = rule.refusal;
    let mut low = rule.low;
    let mut sum: u64 = 0;
    let mut squares: u64 = 0;
    let mut next = at;
    for i in 0..n {
        let x = field_at(b, next, width, low, high, refusal)?;
        low = least_next(rising, low, x);
        sum += x;
        squares += x * x;
        next += width;
    }
    let sums = Sums {
        count: n,
        sum,
        squares,
    };
    Ok(Section { next, sums })
}

// The least number that may follow x: where numbers rise it is the one above x.
fn least_next(rising: bool, low: u64, x: u64) -> u64
    requires { x < 2 ^ 32 }
    ensures { result ≡ least_next rising low x }
{
    if rising { x + 1 } else { low }
}
