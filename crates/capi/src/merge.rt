// The merge of two journals into a third buffer, with its answer in four words.
// `a` and `b` are the slices, `alen` and `blen` the journals' lengths in them, `c` is the third buffer.
ghost use Rattle.std.specs.Prelude.{◌≡◌};
ghost use Rattle.journal_merge_spec.specs.Merge.{merge_of};
ghost use Rattle.journal_merge.specs.Answers.{whose_of, answer_of};
ghost use Rattle.capi.specs.Merge.{whose_word, merge_words};

use journal::Fault;
use journal_merge::{MergeError, Whose};

pub fn journal_merge(a: &[u8], alen: usize, b: &[u8], blen: usize, c: &mut [u8], out: &mut [u64; 4])
    ensures c_after { c.new ≡ (merge_of a.now alen b.now blen c.old).buffer }
    ensures out_after { out.new ≡ merge_words (merge_of a.now alen b.now blen c.old).answer }
{
    let m = journal_merge::merge(a, alen, b, blen, c);
    put_merged(m, out);
}

// 0 and the result's length; 1 and 9; 1, 13 and the place in the result; 2, a fault's number and place, and whose it is; 3, 16, 0 and whose
// end is torn.
#[tactic(auto, unfolding(crate::specs::Merge::merge_words, journal_merge::specs::Answers::answer_of))]
fn put_merged(m: Result<usize, MergeError>, out: &mut [u64; 4])
    ensures { out.new ≡ merge_words (answer_of m) }
{
    match m {
        Ok(n) => *out = [0, n as u64, 0, 0],
        Err(MergeError::Declined(r)) => *out = [1, u64::from(r.number()), 0, 0],
        Err(MergeError::DeclinedAt(Fault { refusal: r, place })) => {
            *out = [1, u64::from(r.number()), place as u64, 0];
        }
        Err(
            MergeError::Damaged {
                whose,
                fault: Fault { refusal: r, place },
            },
        ) => {
            *out = [2, u64::from(r.number()), place as u64, word_of(whose)];
        }
        Err(MergeError::DeclinedOf { whose, refusal }) => {
            *out = [3, u64::from(refusal.number()), 0, word_of(whose)];
        }
    }
}

// 1 for the first journal, 2 for the second.
#[tactic(auto, unfolding(crate::specs::Merge::whose_word, journal_merge::specs::Answers::whose_of))]
fn word_of(w: Whose) -> u64
    ensures { result ≡ whose_word (whose_of w) }
{
    match w {
        Whose::First => 1,
        Whose::Second => 2,
    }
}
