// The limit of a set of times at a chance under a form, with its answer in five words.
// 0 and the bits of mean, spread, quantile and limit, or 1 and the refusal's number.
ghost use Rattle.std.specs.Prelude.{◌≡◌};
ghost use Rattle.limit.specs.Limit.{limit_of};
ghost use Rattle.capi.specs.Limit.{limit_words};

#[unsafe(no_mangle)]
pub extern "C" fn limit_bits(form: u32, times: &[u32], chance: u32, out: &mut [u64; 5])
    ensures { out.new ≡ limit_words (limit_of form times.now chance) }
{
    capi::limits::limit_bits(form, times, chance, out);
}
