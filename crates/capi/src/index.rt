// The index made afresh (request 2026-08), with its answer in three words.
// `v` is the slice, `len` the journal's length in it, `index` the buffer at whose front the index is to stand.
ghost use Rattle.std.specs.Prelude.{◌≡◌};
ghost use Rattle.journal_spec.specs.MakeIndex.{make_index_of};
ghost use Rattle.journal_index.specs.Made.{made_meaning};
ghost use Rattle.capi.specs.Index.{index_words};

use journal::Fault;
use journal_index::IndexError;

pub fn journal_index(v: &[u8], len: usize, index: &mut [u8], out: &mut [u64; 3])
    ensures index_after { index.new ≡ (make_index_of (record { slice = v.now; len = len }) index.old).buffer }
    ensures out_after { out.new ≡ index_words (make_index_of (record { slice = v.now; len = len }) index.old).answer }
{
    let m = journal_index::make_index(v, len, index);
    put_made(m, out);
}

// 0 and the index's length; 1 and 15; or 2, a fault's number and place.
#[tactic(auto, unfolding(crate::specs::Index::index_words, journal_index::specs::Made::made_meaning))]
fn put_made(m: Result<usize, IndexError>, out: &mut [u64; 3])
    ensures { out.new ≡ index_words (made_meaning m) }
{
    match m {
        Ok(n) => *out = [0, n as u64, 0],
        Err(IndexError::Declined(r)) => *out = [1, u64::from(r.number()), 0],
        Err(IndexError::Damaged(Fault { refusal: r, place })) => {
            *out = [2, u64::from(r.number()), place as u64];
        }
    }
}
