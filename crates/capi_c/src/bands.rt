// The band around the mean with a share of links inside, with its answer in three words.
// 0 and the bits of the low and of the high end, or 1 and the refusal's number.
ghost use Rattle.std.specs.Prelude.{◌≡◌};
ghost use Rattle.band.specs.Band.{band_of};
ghost use Rattle.capi.specs.Band.{band_words};

#[unsafe(no_mangle)]
pub extern "C" fn band_bits(times: &[u32], share: u32, out: &mut [u64; 3])
    ensures { out.new ≡ band_words (band_of times.now share) }
{
    capi::bands::band_bits(times, share, out);
}
