// Append that may be handed the index (request 2026-08): the journal's rows first, then 14 and 15, then the record is written, and where it is
// finished the index is amended in its place. Every check is over before the first byte of either buffer is written.
ghost use Rattle.std.specs.Prelude.{◌≡◌, false, [], ◌∷◌, ℕ, ◌+◌, ◌*◌, ◌≤◌, leb, length, take, MatchResult};
ghost use Rattle.limit.specs.Times.{max_count};
ghost use Rattle.journal_spec.specs.Refusals.{first_of};
ghost use Rattle.journal_spec.specs.Record.{max_name, max_chances};
ghost use Rattle.journal_spec.specs.Scan.{standing};
ghost use Rattle.journal_spec.specs.Index.{amend};
ghost use Rattle.journal_spec.specs.Request.{allowed};
ghost use Rattle.journal_spec.specs.Request as Request;
ghost use Rattle.journal_spec.specs.Append.{judge_index, judge_index_room, append_refusals, append_to, append_of};
ghost use Rattle.journal_spec.proofs.Whole.{WholeBytes};
ghost use Rattle.journal.specs.Records.{as_last};
ghost use Rattle.journal.specs.Handed.{request_by, as_budget};
ghost use Rattle.journal.specs.Answers.{append_meaning, outcome_with};
ghost use Rattle.journal.specs.Told.{Judged};
ghost use Rattle.journal_index.specs.Offered.{request_with};
ghost use Rattle.journal_index.specs.Outcome.{handed, indexed_outcome};
ghost use Rattle.journal_index.specs.Standing.{placed_in, index_in, Stands, refusal_in};

use crate::own::is_own;
use journal::{
    AppendError, Asked, Budget, Contents, FIXED_SIZE, append_with, contents_of, extend_by,
};
use journal_entries::{amend, has_room};
use refusals::Refusal;

// Append of times with an index in a buffer of its own; or, where none is handed, without one, and the buffer stays.
// The buffer and its flag are no Option<&mut [u8]>: three forms were tried, and none proves at a caller what its buffer holds after the call.
pub fn append_beside(
    v: &mut [u8],
    len: usize,
    name: &[u8],
    chances: &[u32],
    times: &[u32],
    index: &mut [u8],
    indexed: bool,
    asked: Asked,
) -> Result<usize, AppendError>
    ensures index_after { outcome_with len result v.new (handed indexed index.new)
        ≡ append_of (record { slice = v.old; len = len })
        (request_by asked name.now chances.now (Request.times times.now) (handed indexed index.old)) }
    ensures index_unchanged { indexed ≡ false → index.new ≡ index.old }
{
    if !indexed {
        return append_with(v, len, name, chances, times, asked);
    }
    let offer = Offer {
        name,
        chances,
        times,
        asked,
    };
    append_indexed(v, len, &offer, index)
}

// A record's name, chances and times, and what the call asks besides.
#[derive(Clone, Copy)]
struct Offer<'a> {
    name: &'a [u8],
    chances: &'a [u32],
    times: &'a [u32],
    asked: Asked,
}

impl Offer<'_> {
    // The bytes of the record that is offered: it has as many limits as chances.
    fn size_of(&self) -> usize
        requires { (length self.now.name.now ≤ max_name) × (length self.now.chances.now ≤ max_chances) × (length self.now.times.now ≤ max_count) }
        ensures { result ≡ 12 + length self.now.name.now + 12 * length self.now.chances.now + 4 * length self.now.times.now }
    {
        FIXED_SIZE + self.name.len() + 12 * self.chances.len() + 4 * self.times.len()
    }
}

// Append of times with an index in a buffer of its own.
fn append_indexed(
    v: &mut [u8],
    len: usize,
    offer: &Offer,
    index: &mut [u8],
) -> Result<usize, AppendError>
    ensures { indexed_outcome len result v.new index.new
        ≡ append_of (record { slice = v.old; len = len }) (request_with offer.now index.old) }
{
    match contents_of(v, len, 0, offer.asked.rule) {
        Ok(contents) => extend_indexed(v, contents, offer, index),
        Err(fault) => Err(AppendError::Damaged(fault)),
    }
}

// The offer after the records that stand: what declines it, in the papers' order; else it is written. With a budget of nothing the journal's own
// rows are judged and no byte is written.
fn extend_indexed(
    v: &mut [u8],
    contents: Contents,
    offer: &Offer,
    index: &mut [u8],
) -> Result<usize, AppendError>
    requires { Stands v.old contents.committed (as_last contents.last) }
    ensures { (len : ℕ) → indexed_outcome len result v.new index.new
        ≡ append_to (standing (placed_in (take contents.committed v.old)) contents.committed) (record { slice = v.old; len = len })
        (request_with offer.now index.old) }
{
    let Offer {
        name,
        chances,
        times,
        asked,
    } = *offer;
    let Contents {
        committed,
        last,
        ..
    } = contents;
    let nothing = Asked {
        budget: Budget::UpTo(0),
        ..asked
    };
    let judged = extend_by(v, committed, last, name, chances, times, nothing);
    if let Err(refusal) = refusal_of(judged) {
        return Err(AppendError::Declined(refusal));
    }
    if let Err(refusal) = index_refusal(&v[..committed], name, index) {
        return Err(AppendError::Declined(refusal));
    }
    extend_and_amend(v, contents, offer, index)
}

// An offer that nothing declines: its first bytes are written, as many as the budget lets through, and the index is amended if these are all.
fn extend_and_amend(
    v: &mut [u8],
    contents: Contents,
    offer: &Offer,
    index: &mut [u8],
) -> Result<usize, AppendError>
    requires stands { Stands v.old contents.committed (as_last contents.last) }
    requires index_value { first_of (append_refusals (length v.old) (placed_in (take contents.committed v.old)) contents.committed
        (request_with offer.now index.old)) ≡ 0 }
    ensures { (len : ℕ) → indexed_outcome len result v.new index.new
        ≡ append_to (standing (placed_in (take contents.committed v.old)) contents.committed) (record { slice = v.old; len = len })
        (request_with offer.now index.old) }
{
    let Offer {
        name,
        chances,
        times,
        asked,
    } = *offer;
    let Contents {
        committed,
        last,
        ..
    } = contents;
    let finished = is_finished(asked.budget, offer.size_of());
    let r = extend_by(v, committed, last, name, chances, times, asked);
    if finished {
        amend(index, name, committed);
    }
    r
}

// What an answer declines by, if it does.
#[tactic(auto, unfolding(journal::specs::Answers::append_meaning, crate::specs::Standing::refusal_in))]
fn refusal_of(r: Result<usize, AppendError>) -> Result<(), Refusal>
    ensures { MatchResult result (λ _. refusal_in (append_meaning r) ≡ 0) (λ f. r ≡ Err (AppendError.Declined f)) }
{
    match r {
        Err(AppendError::Declined(refusal)) => Err(refusal),
        _ => Ok(()),
    }
}

// What is refused of an index for the records of some bytes, behind which one of the name is to stand: 14, 15, or nothing.
fn index_refusal(b: &[u8], name: &[u8], index: &[u8]) -> Result<(), Refusal>
    requires { WholeBytes b.now }
    ensures { (start : ℕ) → Judged result
        (first_of (judge_index (index_in b.now) index.now
        ∷ judge_index_room (amend (record { name = name.entry.now; start = start }) (index_in b.now)) index.now
        ∷ [])) }
{
    if !is_own(b, index) {
        return Err(Refusal::Index);
    }
    if !has_room(index, name) {
        return Err(Refusal::IndexRoom);
    }
    Ok(())
}

// Whether the budget lets all of a record of that size through.
fn is_finished(budget: Budget, size: usize) -> bool
    ensures { result ≡ leb size (allowed (as_budget budget) size) }
{
    match budget {
        Budget::All => true,
        Budget::UpTo(k) => size <= k,
    }
}
