// The answers that a line asks for, by the functions of the C interface, against those that it expects.
// The journal stands in a buffer, and a line says how much of the buffer the slice is.
ghost use Rattle.std.specs.Prelude.{◌≡◌, take};
ghost use Rattle.journal_spec.specs.Scan.{scan_of};
ghost use Rattle.journal_spec.specs.Read.{part_place};
ghost use Rattle.capi.specs.Journal.{scan_words, part_words};
ghost use Rattle.replay_cases.specs.Line.{rule_by};
ghost use Rattle.replay_cases.specs.Compare.{compared_with, stored_if_room, verdict_of, scan_agrees, part_agrees, mark_agrees};

use crate::line::{Case, agree, by_profile};
use capi::journals::{
    journal_mark, journal_part, journal_profile_mark, journal_profile_part, journal_profile_scan,
    journal_scan,
};

// What a line tells: its bytes go into the buffer, or the answer is as expected or not, or it is no such line.
#[derive(Clone, Copy)]
pub(crate) enum Compared {
    Stored,
    Same,
    Differs,
    Malformed,
}

// The line against the journal in the buffer.
#[tactic(auto, unfolding(crate::specs::Compare::compared_with))]
pub(crate) fn compare(line: &[u8], a: Option<Case>, v: &[u8]) -> Compared
    ensures { result ≡ compared_with line.now a v.now }
{
    match a {
        Some(Case::Bytes { place, .. }) => stored_if_room(place, v.len()),
        Some(Case::Scan { size, len }) => verdict(scan_agrees(line, front(v, size), len)),
        Some(Case::Part { size, len, i }) => verdict(part_agrees(line, front(v, size), len, i)),
        Some(Case::Mark { size, len, i }) => verdict(mark_agrees(line, front(v, size), len, i)),
        None => Compared::Malformed,
    }
}

// Stored where eight bytes have room in a buffer of a size from a place on, and malformed elsewhere.
#[tactic(auto, using(std::proofs::lemmas::Bool::Decides::nat_tests), unfolding(crate::specs::Compare::stored_if_room))]
fn stored_if_room(place: usize, size: usize) -> Compared
    ensures { result ≡ stored_if_room place size }
{
    if 8 <= size && place <= size - 8 {
        Compared::Stored
    } else {
        Compared::Malformed
    }
}

// Whether the answer is as expected.
#[tactic(auto, unfolding(crate::specs::Compare::verdict_of))]
fn verdict(same: bool) -> Compared
    ensures { result ≡ verdict_of same }
{
    if same {
        Compared::Same
    } else {
        Compared::Differs
    }
}

// The first bytes of a buffer, or all where it has no more.
fn front(v: &[u8], size: usize) -> &[u8]
    ensures { result.now ≡ take size v.now }
{
    v.get(..size).unwrap_or(v)
}

// Scan's three words against the line's.
#[tactic(auto, unfolding(crate::specs::Compare::scan_agrees))]
fn scan_agrees(line: &[u8], v: &[u8], len: usize) -> bool
    ensures { result ≡ scan_agrees line.now v.now len }
{
    let mut out = [0u64; 3];
    put_scan(line, v, len, &mut out);
    agree(line, out[0], out[1], out[2])
}

// Scan's three words, by the line's rule.
fn put_scan(line: &[u8], v: &[u8], len: usize, out: &mut [u64; 3])
    ensures { out.new ≡ scan_words (scan_of (rule_by line.now) v.now len) }
{
    if by_profile(line) {
        journal_profile_scan(v, len, out);
    } else {
        journal_scan(v, len, out);
    }
}

// The part's two words against the line's last two.
#[tactic(auto, unfolding(crate::specs::Compare::part_agrees))]
fn part_agrees(line: &[u8], v: &[u8], len: usize, i: usize) -> bool
    ensures { result ≡ part_agrees line.now v.now len i }
{
    let mut out = [0u64; 2];
    put_part(line, v, len, i, &mut out);
    agree(line, 0, out[0], out[1])
}

// The part's two words, by the line's rule.
fn put_part(line: &[u8], v: &[u8], len: usize, i: usize, out: &mut [u64; 2])
    ensures { out.new ≡ part_words (part_place (rule_by line.now) v.now len i) }
{
    if by_profile(line) {
        journal_profile_part(v, len, i, out);
    } else {
        journal_part(v, len, i, out);
    }
}

// The mark's word against the line's middle one.
fn mark_agrees(line: &[u8], v: &[u8], len: usize, i: usize) -> bool
    ensures { result ≡ mark_agrees line.now v.now len i }
{
    let mark = if by_profile(line) {
        journal_profile_mark(v, len, i)
    } else {
        journal_mark(v, len, i)
    };
    agree(line, 0, mark, 0)
}
