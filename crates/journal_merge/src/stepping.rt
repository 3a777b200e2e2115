// A pass over both journals: which record is next in the result. The first journal's record is next unless the second's is of an earlier day;
// one of the second's whose bytes stand in the first is dropped.
ghost use Rattle.std.specs.Prelude.{◌≡◌, List, MatchOption};
ghost use Rattle.journal_spec.specs.Record.{Record};
ghost use Rattle.journal_spec.specs.Cursor.{records_in};
ghost use Rattle.journal_merge_spec.specs.Records.{merged_of};
ghost use Rattle.journal_merge.specs.Records.{Rest, ByBytes};
ghost use Rattle.journal_merge.specs.Passes.{first_next, Reached, Somewhere, Took};

use crate::parts::{day_at, record_at};
use crate::searching::is_among;

// Where a pass stands: the places of the next records of both journals.
#[derive(Clone, Copy)]
pub(crate) struct Places {
    pub(crate) first: usize,
    pub(crate) second: usize,
}

// The next record of the result by its bytes, and the places behind it.
#[derive(Clone, Copy)]
pub(crate) struct Taken<'a> {
    pub(crate) record: &'a [u8],
    pub(crate) after: Places,
}

// The next record from some places on, where `sorted` has those of the first journal's records by their bytes.
pub(crate) fn next_record<'a>(
    a: &'a [u8],
    b: &'a [u8],
    sorted: &[u16],
    from: Places,
) -> Option<Taken<'a>>
    requires { Somewhere a.now b.now from × ByBytes a.now sorted.now }
    ensures { (made : List Record) → Reached a.now b.now from made
        → MatchOption result (merged_of (records_in a.now) (records_in b.now) ≡ made)
        (λ t. Took a.now b.now from made t.record.now t.after) }
{
    let mut at = from;
    'steps: loop {
        if first_is_next(a, b, at.first, at.second) {
            let record = record_at(a, at.first);
            let first = at.first + record.len();
            return Some(Taken {
                record,
                after: Places { first, ..at },
            });
        }
        if b.len() <= at.second {
            return None;
        }
        let record = record_at(b, at.second);
        let second = at.second + record.len();
        let after = Places { second, ..at };
        if !is_among(a, sorted, record) {
            return Some(Taken { record, after });
        }
        at = after;
    }
}

// Whether the first journal's record at a place is next, where the second's next is at another.
fn first_is_next(a: &[u8], b: &[u8], i: usize, j: usize) -> bool
    requires { Rest a.now i × Rest b.now j }
    ensures { result ≡ first_next a.now b.now i j }
{
    i < a.len() && (b.len() <= j || day_at(a, i) <= day_at(b, j))
}
