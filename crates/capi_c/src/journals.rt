// The journal's scan and reading's two calls, plain and by the profile, their answers in words.
// `v` is the slice, `len` the journal's length in it.
ghost use Rattle.std.specs.Prelude.{◌≡◌};
ghost use Rattle.journal_spec.specs.Profile.{plain, profile};
ghost use Rattle.journal_spec.specs.Scan.{scan_of};
ghost use Rattle.journal_spec.specs.Read.{part_place, read_mark};
ghost use Rattle.capi.specs.Journal.{scan_words, part_words, mark_word};

#[unsafe(no_mangle)]
pub extern "C" fn journal_scan(v: &[u8], len: usize, out: &mut [u64; 3])
    ensures { out.new ≡ scan_words (scan_of plain v.now len) }
{
    capi::journals::journal_scan(v, len, out);
}

#[unsafe(no_mangle)]
pub extern "C" fn journal_part(v: &[u8], len: usize, i: usize, out: &mut [u64; 2])
    ensures { out.new ≡ part_words (part_place plain v.now len i) }
{
    capi::journals::journal_part(v, len, i, out);
}

#[unsafe(no_mangle)]
pub extern "C" fn journal_mark(v: &[u8], len: usize, i: usize) -> u64
    ensures { result ≡ mark_word (read_mark plain v.now len i) }
{
    capi::journals::journal_mark(v, len, i)
}

// Request 2026-14's profile calls: a record that breaks the profile is a fault, number 19, at its first byte.
#[unsafe(no_mangle)]
pub extern "C" fn journal_profile_scan(v: &[u8], len: usize, out: &mut [u64; 3])
    ensures { out.new ≡ scan_words (scan_of profile v.now len) }
{
    capi::journals::journal_profile_scan(v, len, out);
}

#[unsafe(no_mangle)]
pub extern "C" fn journal_profile_part(v: &[u8], len: usize, i: usize, out: &mut [u64; 2])
    ensures { out.new ≡ part_words (part_place profile v.now len i) }
{
    capi::journals::journal_profile_part(v, len, i, out);
}

#[unsafe(no_mangle)]
pub extern "C" fn journal_profile_mark(v: &[u8], len: usize, i: usize) -> u64
    ensures { result ≡ mark_word (read_mark profile v.now len i) }
{
    capi::journals::journal_profile_mark(v, len, i)
}
