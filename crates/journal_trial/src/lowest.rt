// The lowest chance that was overrun: overs × 1,000,000 exceed chance × links, in whole numbers.
// The chances rise, so that it is the first; the products are taken in parts that a u64 holds, whatever the counts are.
ghost use Rattle.std.specs.Prelude.{◌≡◌, ◌≤◌, ◌&&◌, nat_le};
ghost use Rattle.journal_trial_spec.specs.Trial.{million, overruns};
ghost use Rattle.journal_trial.specs.Lowest.{ChancesIn, lowest_in};

use journal_parts::number_in;

// The least chance that is certain.
const MILLION: u64 = 1_000_000;

// Whether a chance in a million was exceeded: more links were over than it promises. No chance is above a million.
pub fn exceeds(links: u64, chance: u64, overs: u64) -> bool
    ensures { result ≡ (nat_le chance million && overruns links chance overs) }
{
    chance <= MILLION && is_overrun(links, chance, overs)
}

// The first chance that was overrun, of those whose bytes these are.
pub(crate) fn lowest(links: u64, chances: &[u8], overs: &[u64; 8]) -> Option<u64>
    requires { ChancesIn chances.now }
    ensures { result ≡ lowest_in links chances.now overs.now }
{
    for j in 0..chances.len() / 4 {
        let chance = number_in(chances, 4 * j, 4);
        if is_overrun(links, chance, overs[j]) {
            return Some(chance);
        }
    }
    None
}

// Whether a chance was overrun.
fn is_overrun(links: u64, chance: u64, overs: u64) -> bool
    requires { chance ≤ million }
    ensures { result ≡ overruns links chance overs }
{
    let millions = chance * (links / MILLION);
    let product = chance * (links % MILLION);
    let bound = millions + product / MILLION;
    bound < overs
}
