// The second pass: the records of the result, copied to the buffer's front one behind the other.
// There is room for them, and bytes beyond them stay.
ghost use Rattle.std.specs.Prelude.{◌≡◌, ◌≤◌, length};
ghost use Rattle.journal_spec.specs.Record.{records_bytes};
ghost use Rattle.journal_spec.specs.Append.{written};
ghost use Rattle.journal_spec.specs.Model.{lengths_of};
ghost use Rattle.journal_spec.specs.Cursor.{records_in};
ghost use Rattle.journal_spec.proofs.Whole.{WholeBytes};
ghost use Rattle.journal_merge_spec.specs.Records.{merged_of};
ghost use Rattle.journal_merge.specs.Records.{ByBytes};

use crate::stepping::{Places, Taken, next_record};
use text_digits::put;

pub(crate) fn copy(a: &[u8], b: &[u8], sorted: &[u16], out: &mut [u8])
    requires { WholeBytes a.now × WholeBytes b.now × (lengths_of (merged_of (records_in a.now) (records_in b.now)) ≤ length out.old)
        × ByBytes a.now sorted.now }
    ensures { out.new
        ≡ written out.old 0 (records_bytes (merged_of (records_in a.now) (records_in b.now))) }
{
    let mut p = Places {
        first: 0,
        second: 0,
    };
    let mut n: usize = 0;
    'records: while let Some(Taken { record, after }) = next_record(a, b, sorted, p) {
        n = put(out, n, record);
        p = after;
    }
}
