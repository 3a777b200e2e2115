// Scan and reading's two calls by a rule: the plain ones and request 2026-14's profile calls are these with their rule.
// One pass over the journal serves each.
ghost use Rattle.std.specs.Prelude.{◌≡◌};
ghost use Rattle.journal_spec.specs.Scan.{contents_of, scan_of};
ghost use Rattle.journal_spec.specs.Read.{part_place, read_part, read_mark};
ghost use Rattle.journal.specs.Told.{by_number};
ghost use Rattle.journal.specs.Contents.{status_read, place_read};
ghost use Rattle.journal.specs.Handed.{as_rule};
ghost use Rattle.journal.specs.Answers.{meaning, place_meaning, mark_meaning};

use crate::contents::{Contents, contents_of};
use crate::marks::{Mark, mark_from};
use crate::profile::Rule;
use crate::{Fault, Part, Status};
use refusals::Refusal;

// Document 01's survey by a rule.
pub fn scan_by(v: &[u8], len: usize, rule: Rule) -> Status
    ensures { meaning result ≡ scan_of (as_rule rule) v.now len }
{
    let x = contents_of(v, len, 0, rule);
    status_of(x, len)
}

// What scan answers of a journal of a length, by what stands in it.
pub fn status_of(x: Result<Contents, Fault>, len: usize) -> Status
    ensures { meaning result ≡ status_read len (by_number x) }
{
    match x {
        Ok(
            Contents {
                records,
                committed,
                ..
            },
        ) => {
            if committed == len {
                Status::Whole { records, committed }
            } else {
                Status::Torn { records, committed }
            }
        }
        Err(fault) => Status::Damaged(fault),
    }
}

// The bytes of record i, an empty part where refused.
pub fn read_by<'a>(v: &'a [u8], len: usize, i: usize, rule: Rule) -> &'a [u8]
    ensures { result.now ≡ read_part (as_rule rule) v.now len i }
{
    match part_place_by(v, len, i, rule) {
        Some(p) => &v[p.start..p.start + p.size],
        None => &v[..0],
    }
}

// Where that part stands; nowhere where refused.
pub fn part_place_by(v: &[u8], len: usize, i: usize, rule: Rule) -> Option<Part>
    ensures place { result ≡ place_read i (contents_of (as_rule rule) v.now len) }
    ensures value { place_meaning result ≡ part_place (as_rule rule) v.now len i }
{
    let Ok(contents) = contents_of(v, len, i, rule) else {
        return None;
    };
    let shown = contents.shown?;
    Some(Part {
        start: shown.start,
        size: shown.size,
    })
}

// The mark of record i, or the refusal.
pub fn mark_by(v: &[u8], len: usize, i: usize, rule: Rule) -> Result<Mark, Refusal>
    ensures { mark_meaning result ≡ read_mark (as_rule rule) v.now len i }
{
    match contents_of(v, len, i, rule) {
        Ok(contents) => match contents.shown {
            Some(shown) => Ok(mark_from(shown.flat, shown.times)),
            None => Err(Refusal::Absent),
        },
        Err(fault) => Err(fault.refusal),
    }
}
