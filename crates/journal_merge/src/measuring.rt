// The first pass: the length of the result, or the place in it of a form 1 after form 2.
// Nothing is written.
ghost use Rattle.std.specs.Prelude.{◌≡◌};
ghost use Rattle.journal_spec.specs.Cursor.{records_in};
ghost use Rattle.journal_spec.proofs.Whole.{WholeBytes};
ghost use Rattle.journal_merge_spec.specs.Records.{merged_of};
ghost use Rattle.journal_merge.specs.Records.{ByBytes};
ghost use Rattle.journal_merge.specs.Passes.{measured_of};

use crate::MergeError;
use crate::stepping::{Places, Taken, next_record};
use journal::Fault;
use journal_parts::number_in;
use refusals::Refusal;

pub(crate) fn measure(a: &[u8], b: &[u8], sorted: &[u16]) -> Result<usize, MergeError>
    requires { WholeBytes a.now × WholeBytes b.now × ByBytes a.now sorted.now }
    ensures { result ≡ measured_of (merged_of (records_in a.now) (records_in b.now)) }
{
    let mut p = Places {
        first: 0,
        second: 0,
    };
    let mut n: usize = 0;
    let mut form: u64 = 0;
    'records: while let Some(Taken { record, after }) = next_record(a, b, sorted, p) {
        let next = number_in(record, 0, 2);
        if next < form {
            return Err(MergeError::DeclinedAt(Fault {
                refusal: Refusal::OldForm,
                place: n,
            }));
        }
        form = next;
        n += record.len();
        p = after;
    }
    Ok(n)
}
