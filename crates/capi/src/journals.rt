// The journal's scan and reading's two calls, plain and by the profile, their answers in words.
// `v` is the slice, `len` the journal's length in it.
ghost use Rattle.std.specs.Prelude.{◌≡◌};
ghost use Rattle.journal_spec.specs.Profile.{plain, profile};
ghost use Rattle.journal_spec.specs.Scan.{scan_of};
ghost use Rattle.journal_spec.specs.Read.{part_place, read_mark};
ghost use Rattle.journal.specs.Answers.{meaning, place_meaning, mark_meaning};
ghost use Rattle.capi.specs.Journal.{scan_words, part_words, mark_word};

use journal::marks::{Mark, letter_of};
use journal::{Fault, Part, Rule, Status};
use refusals::Refusal;

pub fn journal_scan(v: &[u8], len: usize, out: &mut [u64; 3])
    ensures { out.new ≡ scan_words (scan_of plain v.now len) }
{
    let s = journal::scan(v, len);
    put_status(s, out);
}

pub fn journal_part(v: &[u8], len: usize, i: usize, out: &mut [u64; 2])
    ensures { out.new ≡ part_words (part_place plain v.now len i) }
{
    let p = journal::part_place(v, len, i);
    put_part(p, out);
}

pub fn journal_mark(v: &[u8], len: usize, i: usize) -> u64
    ensures { result ≡ mark_word (read_mark plain v.now len i) }
{
    let m = journal::mark(v, len, i);
    mark_word(m)
}

// Request 2026-14's profile calls: a record that breaks the profile is a fault, number 19, at its first byte.
pub fn journal_profile_scan(v: &[u8], len: usize, out: &mut [u64; 3])
    ensures { out.new ≡ scan_words (scan_of profile v.now len) }
{
    let s = journal::scan_by(v, len, Rule::Profile);
    put_status(s, out);
}

pub fn journal_profile_part(v: &[u8], len: usize, i: usize, out: &mut [u64; 2])
    ensures { out.new ≡ part_words (part_place profile v.now len i) }
{
    let p = journal::part_place_by(v, len, i, Rule::Profile);
    put_part(p, out);
}

pub fn journal_profile_mark(v: &[u8], len: usize, i: usize) -> u64
    ensures { result ≡ mark_word (read_mark profile v.now len i) }
{
    let m = journal::mark_by(v, len, i, Rule::Profile);
    mark_word(m)
}

// 0 whole or 1 torn, with the number of records and the committed length; or 2, with the fault's number and place.
#[tactic(auto, unfolding(crate::specs::Journal::scan_words, journal::specs::Answers::meaning))]
fn put_status(s: Status, out: &mut [u64; 3])
    ensures { out.new ≡ scan_words (meaning s) }
{
    match s {
        Status::Whole { records, committed } => *out = [0, records as u64, committed as u64],
        Status::Torn { records, committed } => *out = [1, records as u64, committed as u64],
        Status::Damaged(Fault { refusal: r, place }) => {
            *out = [2, u64::from(r.number()), place as u64];
        }
    }
}

// The place of a record's first byte and its bytes' number, both 0 where reading is refused.
#[tactic(auto, unfolding(crate::specs::Journal::part_words, journal::specs::Answers::place_meaning, journal::specs::Answers::part_meaning, journal_spec::specs::Read::no_part))]
fn put_part(p: Option<Part>, out: &mut [u64; 2])
    ensures { out.new ≡ part_words (place_meaning p) }
{
    match p {
        Some(Part { start, size }) => *out = [start as u64, size as u64],
        None => *out = [0, 0],
    }
}

// The letter of a record's mark, or the refusal's number.
#[tactic(auto, unfolding(crate::specs::Journal::mark_word, journal::specs::Answers::mark_meaning))]
fn mark_word(m: Result<Mark, Refusal>) -> u64
    ensures { result ≡ mark_word (mark_meaning m) }
{
    match m {
        Ok(mark) => u64::from(letter_of(mark)),
        Err(r) => u64::from(r.number()),
    }
}
