// The index made afresh (request 2026-08), with its answer in three words.
// `v` is the slice, `len` the journal's length in it, `index` the buffer at whose front the index is to stand.
ghost use Rattle.std.specs.Prelude.{◌≡◌};
ghost use Rattle.journal_spec.specs.MakeIndex.{make_index_of};
ghost use Rattle.capi.specs.Index.{index_words};

#[unsafe(no_mangle)]
pub extern "C" fn journal_index(v: &[u8], len: usize, index: &mut [u8], out: &mut [u64; 3])
    ensures index_after { index.new ≡ (make_index_of (record { slice = v.now; len = len }) index.old).buffer }
    ensures out_after { out.new ≡ index_words (make_index_of (record { slice = v.now; len = len }) index.old).answer }
{
    capi::index::journal_index(v, len, index, out);
}
