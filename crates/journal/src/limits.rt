// The limits of a record, as many as its chances: each is worked out once, at its chance from mean and spread, which are the record's, and the
// bits that stand have to be its own. Of the record before the quantiles are known.
ghost use Rattle.std.specs.Prelude.{◌≡◌, ◌+◌, ◌*◌, ◌≤◌, length};
ghost use Rattle.limit.specs.Answer.{moments_meaning};
ghost use Rattle.journal.specs.Told.{told};
ghost use Rattle.journal.specs.Found.{field_by, limit_refusal_at, limits_at, limit_section_at};

use crate::field::{Stop, field_at};
use crate::quantiles::{Known, quantile_at};
use crate::record::MAX_CHANCES;
use journal_parts::number_at;
use limit::Moments;
use refusals::Refusal;

// The limits' section at a place, for n chances that stand from another place on, mean and spread. Answers the place after it.
pub(crate) fn limit_section_at(
    b: &[u8],
    at: usize,
    n: u64,
    chances: usize,
    worked: Result<Moments, Refusal>,
    kept: &mut [Known; MAX_CHANCES],
) -> Result<usize, Stop>
    requires { (at ≤ length b.now) × (chances + n * 4 ≤ length b.now) }
    ensures { told result ≡ limit_section_at n chances (moments_meaning worked) at b.now }
{
    let _count = field_at(b, at, 2, n, n, Refusal::Limit)?;
    limits_at(b, at + 2, n, chances, worked, kept)
}

// The n limits at a place. Answers the place after them.
fn limits_at(
    b: &[u8],
    at: usize,
    n: u64,
    chances: usize,
    worked: Result<Moments, Refusal>,
    kept: &mut [Known; MAX_CHANCES],
) -> Result<usize, Stop>
    requires { (at ≤ length b.now) × (chances + n * 4 ≤ length b.now) }
    ensures { told result ≡ limits_at n chances (moments_meaning worked) at b.now }
{
    let mut next = at;
    let mut chance = chances;
    for i in 0..n {
        let _bits = limit_at(b, next, chance, worked, n - i, kept)?;
        next += 8;
        chance += 4;
    }
    Ok(next)
}

// The limit at a place, one of so many that are left, against the one worked out for the chance that stands at another place. Where that one
// is refused, which no chance and no times that were read are, no bits are right.
fn limit_at(
    b: &[u8],
    at: usize,
    chance: usize,
    worked: Result<Moments, Refusal>,
    left: u64,
    kept: &mut [Known; MAX_CHANCES],
) -> Result<u64, Stop>
    requires { (at ≤ length b.now) × (chance + 4 ≤ length b.now) }
    ensures { told result ≡ field_by 8 (limit_refusal_at b.now (moments_meaning worked) chance) at b.now }
{
    let c = number_at(b, chance, 4);
    let quantile = quantile_at(left, c as u32, kept);
    match limit::limit_of_quantile(worked, c as u32, quantile) {
        Ok(f) => {
            let bits = double_bits::bits_of(f.limit);
            field_at(b, at, 8, bits, bits, Refusal::Limit)
        }
        Err(_) => field_at(b, at, 8, 1, 0, Refusal::Limit),
    }
}
