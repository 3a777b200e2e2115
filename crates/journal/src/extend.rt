// An offered record joins a journal that stands: the check, then the room, then the bytes, from the committed length onward.
// Every check is over before the first byte is written.
ghost use Rattle.std.specs.Prelude.{◌≡◌, List, ℕ, ◌+◌, min, leb, length, take};
ghost use Rattle.std.proofs.Math.Option.{none};
ghost use Rattle.journal_spec.specs.Record.{last_of};
ghost use Rattle.journal_spec.specs.Scan.{max_length, Placed, records_of, standing};
ghost use Rattle.journal_spec.specs.Request.{allowed};
ghost use Rattle.journal_spec.specs.Request as Request;
ghost use Rattle.journal_spec.specs.Append.{judge_room, settle, append_to, append_of};
ghost use Rattle.journal.specs.Records.{as_last};
ghost use Rattle.journal.specs.Handed.{request_by, as_budget};
ghost use Rattle.journal.specs.Answers.{outcome_of};

use crate::AppendError;
use crate::contents::{MAX_LENGTH, contents_of};
use crate::layout::{MAX_RECORD, lay_record};
use crate::offer::{Offer, offer_refusal};
use crate::profile::Rule;
use crate::record::{Head, MAX_CHANCES};
use crate::write::put_record;
use refusals::Refusal;

// The bytes that every record has, whatever its sections hold: form, day and the four sections' counts, two bytes each.
pub const FIXED_SIZE: usize = 12;

// How much of the record a call may write: all of it, or document 01's k bytes.
#[derive(Clone, Copy)]
pub enum Budget {
    All,
    UpTo(usize),
}

// What a call asks besides what it is lent: the record's day, how much of the record may be written, and the rule.
#[derive(Clone, Copy)]
pub struct Asked {
    pub day: u16,
    pub budget: Budget,
    pub rule: Rule,
}

// Every append of times: the journal's faults, then the offer after what stands.
pub fn append_with(
    v: &mut [u8],
    len: usize,
    name: &[u8],
    chances: &[u32],
    times: &[u32],
    asked: Asked,
) -> Result<usize, AppendError>
    ensures { outcome_of len result v.new ≡ append_of (record { slice = v.old; len = len })
        (request_by asked name.now chances.now (Request.times times.now) none) }
{
    match contents_of(v, len, 0, asked.rule) {
        Ok(c) => extend_by(v, c.committed, c.last, name, chances, times, asked),
        Err(fault) => Err(AppendError::Damaged(fault)),
    }
}

// The offer after the records `ps`, whose last is `last`, in a journal of that committed length.
pub fn extend_by(
    v: &mut [u8],
    committed: usize,
    last: Head,
    name: &[u8],
    chances: &[u32],
    times: &[u32],
    asked: Asked,
) -> Result<usize, AppendError>
    ensures { (len : ℕ) (ps : List Placed) → as_last last ≡ last_of (records_of ps)
        → outcome_of len result v.new ≡ append_to (standing ps committed) (record { slice = v.old; len = len })
        (request_by asked name.now chances.now (Request.times times.now) none) }
{
    let offer = Offer {
        day: asked.day,
        name,
        chances,
        times,
    };
    let mut bits: [u64; MAX_CHANCES] = [0; MAX_CHANCES];
    if let Err(refusal) = offer_refusal(last, &offer, asked.rule, &mut bits) {
        return Err(AppendError::Declined(refusal));
    }
    let n = chances.len();
    let mut bytes: [u8; MAX_RECORD] = [0; MAX_RECORD];
    let size = lay_record(&mut bytes, &offer, &bits[..n]);
    extend_within(v, committed, &bytes[..size], asked.budget)
}

// A record that nothing else refuses: no room, or its first bytes are written, as many as the budget lets through.
fn extend_within(
    v: &mut [u8],
    committed: usize,
    bytes: &[u8],
    budget: Budget,
) -> Result<usize, AppendError>
    ensures { (len : ℕ) → outcome_of len result v.new
        ≡ settle (judge_room (length v.old) committed (length bytes.now)) (record { slice = v.old; len = len }) none
        committed (take (allowed (as_budget budget) (length bytes.now)) bytes.now) none }
{
    let size = bytes.len();
    if !has_room(v.len(), committed, size) {
        return Err(AppendError::Declined(Refusal::Room));
    }
    let end = end_of(budget, size);
    let n = put_record(&mut v[committed..], end, bytes);
    let after = committed + n;
    Ok(after)
}

// Whether so many bytes after the committed length end inside the slice and the longest journal.
fn has_room(room: usize, committed: usize, size: usize) -> bool
    ensures { result ≡ leb (committed + size) (min room max_length) }
{
    size <= room && size <= MAX_LENGTH && committed <= room - size && committed <= MAX_LENGTH - size
}

// How many bytes of a record of that size are written.
fn end_of(budget: Budget, size: usize) -> usize
    ensures { result ≡ min (allowed (as_budget budget) size) size }
{
    match budget {
        Budget::All => size,
        Budget::UpTo(k) => k.min(size),
    }
}
