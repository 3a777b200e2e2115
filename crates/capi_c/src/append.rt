// Append and the call with a budget, an append cut after so many bytes, of times or through the build server's log (request 2026-01). The last two
// also take an index in a buffer of its own (request 2026-08), and options: whether it is handed, and by which rule (request 2026-14).
// `v` is the slice, `len` the journal's length in it, `log` all of the log; each has its answer in three words.
ghost use Rattle.std.specs.Prelude.{◌≡◌};
ghost use Rattle.std.proofs.Math.Option.{none};
ghost use Rattle.journal_spec.specs.Profile.{plain};
ghost use Rattle.journal_spec.specs.Request.{all, up_to, request_of};
ghost use Rattle.journal_spec.specs.Request as Request;
ghost use Rattle.journal_spec.specs.Append.{append_of};
ghost use Rattle.capi.specs.Append.{append_words, rule_of, handed_by, left_in};

#[unsafe(no_mangle)]
pub extern "C" fn journal_append(
    v: &mut [u8],
    len: usize,
    day: u16,
    name: &[u8],
    chances: &[u32],
    times: &[u32],
    out: &mut [u64; 3],
)
    ensures v_after { v.new ≡ (append_of (record { slice = v.old; len = len })
        (request_of day name.now chances.now (Request.times times.now) all plain none)).journal.slice }
    ensures out_after { out.new ≡ append_words (append_of (record { slice = v.old; len = len })
        (request_of day name.now chances.now (Request.times times.now) all plain none)).answer }
{
    capi::append::journal_append(v, len, day, name, chances, times, out);
}

#[unsafe(no_mangle)]
pub extern "C" fn journal_append_upto(
    v: &mut [u8],
    len: usize,
    day: u16,
    name: &[u8],
    chances: &[u32],
    times: &[u32],
    budget: usize,
    out: &mut [u64; 3],
)
    ensures v_after { v.new ≡ (append_of (record { slice = v.old; len = len })
        (request_of day name.now chances.now (Request.times times.now) (up_to budget) plain none)).journal.slice }
    ensures out_after { out.new ≡ append_words (append_of (record { slice = v.old; len = len })
        (request_of day name.now chances.now (Request.times times.now) (up_to budget) plain none)).answer }
{
    capi::append::journal_append_upto(v, len, day, name, chances, times, budget, out);
}

#[unsafe(no_mangle)]
pub extern "C" fn journal_append_log(
    v: &mut [u8],
    len: usize,
    day: u16,
    name: &[u8],
    chances: &[u32],
    log: &[u8],
    out: &mut [u64; 3],
)
    ensures v_after { v.new ≡ (append_of (record { slice = v.old; len = len })
        (request_of day name.now chances.now (Request.log log.now) all plain none)).journal.slice }
    ensures out_after { out.new ≡ append_words (append_of (record { slice = v.old; len = len })
        (request_of day name.now chances.now (Request.log log.now) all plain none)).answer }
{
    capi::append::journal_append_log(v, len, day, name, chances, log, out);
}

#[unsafe(no_mangle)]
pub extern "C" fn journal_append_log_upto(
    v: &mut [u8],
    len: usize,
    day: u16,
    name: &[u8],
    chances: &[u32],
    log: &[u8],
    budget: usize,
    out: &mut [u64; 3],
)
    ensures v_after { v.new ≡ (append_of (record { slice = v.old; len = len })
        (request_of day name.now chances.now (Request.log log.now) (up_to budget) plain none)).journal.slice }
    ensures out_after { out.new ≡ append_words (append_of (record { slice = v.old; len = len })
        (request_of day name.now chances.now (Request.log log.now) (up_to budget) plain none)).answer }
{
    capi::append::journal_append_log_upto(v, len, day, name, chances, log, budget, out);
}

#[unsafe(no_mangle)]
pub extern "C" fn journal_append_with(
    v: &mut [u8],
    len: usize,
    day: u16,
    name: &[u8],
    chances: &[u32],
    times: &[u32],
    budget: usize,
    index: &mut [u8],
    options: u32,
    out: &mut [u64; 3],
)
    ensures v_after { v.new ≡ (append_of (record { slice = v.old; len = len })
        (request_of day name.now chances.now (Request.times times.now) (up_to budget) (rule_of options) (handed_by options index.old))).journal.slice }
    ensures index_after { index.new ≡ left_in index.old (append_of (record { slice = v.old; len = len })
        (request_of day name.now chances.now (Request.times times.now) (up_to budget) (rule_of options) (handed_by options index.old))).index }
    ensures out_after { out.new ≡ append_words (append_of (record { slice = v.old; len = len })
        (request_of day name.now chances.now (Request.times times.now) (up_to budget) (rule_of options) (handed_by options index.old))).answer }
{
    capi::append::journal_append_with(
        v, len, day, name, chances, times, budget, index, options, out,
    );
}

#[unsafe(no_mangle)]
pub extern "C" fn journal_append_log_with(
    v: &mut [u8],
    len: usize,
    day: u16,
    name: &[u8],
    chances: &[u32],
    log: &[u8],
    budget: usize,
    index: &mut [u8],
    options: u32,
    out: &mut [u64; 3],
)
    ensures v_after { v.new ≡ (append_of (record { slice = v.old; len = len })
        (request_of day name.now chances.now (Request.log log.now) (up_to budget) (rule_of options) (handed_by options index.old))).journal.slice }
    ensures index_after { index.new ≡ left_in index.old (append_of (record { slice = v.old; len = len })
        (request_of day name.now chances.now (Request.log log.now) (up_to budget) (rule_of options) (handed_by options index.old))).index }
    ensures out_after { out.new ≡ append_words (append_of (record { slice = v.old; len = len })
        (request_of day name.now chances.now (Request.log log.now) (up_to budget) (rule_of options) (handed_by options index.old))).answer }
{
    capi::append::journal_append_log_with(
        v, len, day, name, chances, log, budget, index, options, out,
    );
}
