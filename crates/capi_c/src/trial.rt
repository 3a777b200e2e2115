// The trial of a recorded log (request 2026-12): the call for an entry of the index, with its answer in twelve words, and the call for unknown names,
// in three. `log` is all of the log, `v` the slice, `len` the journal's length in it, `index` the buffer with the index at its front.
ghost use Rattle.std.specs.Prelude.{◌≡◌};
ghost use Rattle.journal_trial_spec.specs.Trial.{try_entry, try_unknown};
ghost use Rattle.capi.specs.Trial.{trial_words, unknown_words};

#[unsafe(no_mangle)]
pub extern "C" fn journal_trial(
    log: &[u8],
    v: &[u8],
    len: usize,
    index: &[u8],
    position: usize,
    out: &mut [u64; 12],
)
    ensures { out.new ≡ trial_words (try_entry log.now v.now len index.now position) }
{
    capi::trial::journal_trial(log, v, len, index, position, out);
}

#[unsafe(no_mangle)]
pub extern "C" fn journal_trial_unknown(
    log: &[u8],
    v: &[u8],
    len: usize,
    index: &[u8],
    out: &mut [u64; 3],
)
    ensures { out.new ≡ unknown_words (try_unknown log.now v.now len index.now) }
{
    capi::trial::journal_trial_unknown(log, v, len, index, out);
}
