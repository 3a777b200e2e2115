// The merge of two journals into a third buffer (request 2026-09), with two passes over both: the first finds the result's length and where
// forms fall in it, the second copies the records. The first
// journal's records are sorted by their bytes before. Nothing is assumed of the slices, the lengths or the buffer.
#![tactic(auto)]

ghost use Rattle.std.specs.Prelude.{◌≡◌};
ghost use Rattle.journal_spec.specs.Cursor.{records_in};
ghost use Rattle.journal_spec.proofs.Whole.{WholeBytes};
ghost use Rattle.journal_merge_spec.specs.Records.{merged_of};
ghost use Rattle.journal_merge_spec.specs.Merge.{merge_of};
ghost use Rattle.journal_merge.specs.Answers.{outcome_of};
ghost use Rattle.journal_merge.specs.Records.{ByBytes};
ghost use Rattle.journal_merge.specs.Passes.{whole_outcome};

use crate::copying::copy;
use crate::inputs::check_inputs;
use crate::measuring::measure;
use journal::{Fault, MAX_LENGTH, scan};
use journal_order::{Key, Keyed, MOST};
use refusals::Refusal;

mod copying;
mod inputs;
mod measuring;
mod parts;
mod searching;
mod stepping;

// Whose: the first journal's or the second's.
#[derive(Clone, Copy, Debug, PartialEq, Eq)]
pub enum Whose {
    First,
    Second,
}

// Why nothing is merged: a journal's fault, as scan's; or declined: for a torn end, and whose it is; for an old form, and its place in the result;
// or for want of room.
#[derive(Clone, Copy)]
pub enum MergeError {
    Damaged { whose: Whose, fault: Fault },
    DeclinedOf { whose: Whose, refusal: Refusal },
    DeclinedAt(Fault),
    Declined(Refusal),
}

// The journals of two lengths in two slices, merged into a third buffer. Answers the result's length.
pub fn merge(
    v: &[u8],
    len: usize,
    w: &[u8],
    wlen: usize,
    out: &mut [u8],
) -> Result<usize, MergeError>
    ensures { outcome_of result out.new ≡ merge_of v.now len w.now wlen out.old }
{
    check_inputs(scan(v, len), scan(w, wlen))?;
    merge_whole(&v[..len], &w[..wlen], out)
}

// The merge of two whole journals.
fn merge_whole(a: &[u8], b: &[u8], out: &mut [u8]) -> Result<usize, MergeError>
    requires { WholeBytes a.now × WholeBytes b.now }
    ensures { outcome_of result out.new
        ≡ whole_outcome (merged_of (records_in a.now) (records_in b.now)) out.old }
{
    let records = Keyed {
        bytes: a,
        key: Key::Record,
    };
    let mut places: [u16; MOST] = [0; MOST];
    let count = records.latest_of(&mut places);
    merge_sorted(a, b, &places[..count], out)
}

// The same, with the places of the first journal's records by their bytes.
fn merge_sorted(a: &[u8], b: &[u8], sorted: &[u16], out: &mut [u8]) -> Result<usize, MergeError>
    requires { WholeBytes a.now × WholeBytes b.now × ByBytes a.now sorted.now }
    ensures { outcome_of result out.new
        ≡ whole_outcome (merged_of (records_in a.now) (records_in b.now)) out.old }
{
    let n = measure(a, b, sorted)?;
    if out.len().min(MAX_LENGTH) < n {
        return Err(MergeError::Declined(Refusal::Room));
    }
    copy(a, b, sorted, out);
    Ok(n)
}
