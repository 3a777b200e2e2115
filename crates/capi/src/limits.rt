// The limit of a set of times at a chance under a form, with its answer in five words.
// 0 and the bits of mean, spread, quantile and limit, or 1 and the refusal's number.
ghost use Rattle.std.specs.Prelude.{◌≡◌};
ghost use Rattle.limit.specs.Limit.{limit_of};
ghost use Rattle.capi.specs.Limit.{limit_words};

use double_bits::bits_of;
use limit::Figures;

#[tactic(auto, unfolding(crate::specs::Limit::limit_words, limit::specs::Answer::meaning))]
pub fn limit_bits(form: u32, times: &[u32], chance: u32, out: &mut [u64; 5])
    ensures { out.new ≡ limit_words (limit_of form times.now chance) }
{
    match limit::limit(u64::from(form), times, chance) {
        Ok(
            Figures {
                mean,
                spread,
                quantile,
                limit,
            },
        ) => {
            *out = [
                0,
                bits_of(mean),
                bits_of(spread),
                bits_of(quantile),
                bits_of(limit),
            ];
        }
        Err(r) => *out = [1, u64::from(r.number()), 0, 0, 0],
    }
}
