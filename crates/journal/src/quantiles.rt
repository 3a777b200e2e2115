// The quantiles of the chances of the record before, so that a chance that stands again costs none: eight places, as many as a record may have
// chances, each with a chance and its quantile.
ghost use Rattle.std.specs.Prelude.{◌≡◌};
ghost use Rattle.limit.specs.Formula.{quantile_of};

use crate::record::MAX_CHANCES;

// The chance of each place before the first record, which no record has.
const NO_CHANCE: u32 = 0;

// A chance with its own quantile.
#[derive(Clone, Copy)]
pub(crate) struct Known {
    chance: u32,
    quantile: f64,
    ghost own: { quantile ≡ quantile_of chance },
}

// The places before the first record.
pub(crate) fn none_known() -> [Known; MAX_CHANCES] {
    let quantile = limit::quantile_of(NO_CHANCE);
    let none = Known {
        chance: NO_CHANCE,
        quantile,
    };
    [none; MAX_CHANCES]
}

// The quantile of a chance, which is worked out only where its place holds another chance, and then kept there. A record's chances are counted
// from the last, so that the n-th has the place n.
pub(crate) fn quantile_at(n: u64, chance: u32, kept: &mut [Known; MAX_CHANCES]) -> f64
    ensures { result ≡ quantile_of chance }
{
    let place = (n % MAX_CHANCES as u64) as usize;
    let known = kept[place];
    if known.chance == chance {
        return known.quantile;
    }
    let quantile = limit::quantile_of(chance);
    kept[place] = Known { chance, quantile };
    quantile
}
