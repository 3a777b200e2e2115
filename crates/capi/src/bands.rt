// The band around the mean with a share of links inside, with its answer in three words.
// 0 and the bits of the low and of the high end, or 1 and the refusal's number.
ghost use Rattle.std.specs.Prelude.{◌≡◌};
ghost use Rattle.band.specs.Band.{band_of};
ghost use Rattle.capi.specs.Band.{band_words};

use band::Ends;
use double_bits::bits_of;

#[tactic(auto, unfolding(crate::specs::Band::band_words, band::specs::Answer::meaning))]
pub fn band_bits(times: &[u32], share: u32, out: &mut [u64; 3])
    ensures { out.new ≡ band_words (band_of times.now share) }
{
    match band::band(times, share) {
        Ok(Ends { low, high }) => *out = [0, bits_of(low), bits_of(high)],
        Err(r) => *out = [1, u64::from(r.number()), 0],
    }
}
