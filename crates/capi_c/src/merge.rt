// The merge of two journals into a third buffer, with its answer in four words.
// `a` and `b` are the slices, `alen` and `blen` the journals' lengths in them, `c` is the third buffer.
ghost use Rattle.std.specs.Prelude.{◌≡◌};
ghost use Rattle.journal_merge_spec.specs.Merge.{merge_of};
ghost use Rattle.capi.specs.Merge.{merge_words};

#[unsafe(no_mangle)]
pub extern "C" fn journal_merge(
    a: &[u8],
    alen: usize,
    b: &[u8],
    blen: usize,
    c: &mut [u8],
    out: &mut [u64; 4],
)
    ensures c_after { c.new ≡ (merge_of a.now alen b.now blen c.old).buffer }
    ensures out_after { out.new ≡ merge_words (merge_of a.now alen b.now blen c.old).answer }
{
    capi::merge::journal_merge(a, alen, b, blen, c, out);
}
