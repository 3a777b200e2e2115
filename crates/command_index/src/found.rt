// What a look-up finds at an entry's start: the record is judged as a volume of its own, and no other byte of the volume is.
// Its line is the listing's.
ghost use Rattle.std.specs.Prelude.{◌≡◌, ◌≤◌, length, take, Err, IfSome};
ghost use Rattle.text_digits.specs.Text.{Put};
ghost use Rattle.journal_spec.specs.Scan.{max_length};
ghost use Rattle.command_index.specs.Found.{found_meaning, judged_alone, named_size, looked_at, first_line, looked_line, looked_status};

use journal::{Fault, Rule, Status};
use journal_listing::{put_word, put_words};
use journal_parts::{record_name, record_size};
use text_digits::same;

// The most bytes of a volume.
pub(crate) const MAX_LENGTH: usize = 65_536;

// Why nothing is shown: the index has no such name; or no record of the name stands at its start, so that the index is not the volume's; or a fault in
// the record, by its place in the volume.
#[derive(Clone, Copy, Debug, PartialEq, Eq)]
pub enum LookError {
    Absent,
    Other,
    Damaged(Fault),
}

// Room for the longest record: 12 bytes, a name of 32, 8 chances with their limits and 128 times.
pub(crate) fn record_room() -> [u8; 652]
    ensures { 652 ≡ length result }
{
    [0; 652]
}

// What stands of a name at the front of some bytes, which stand in the volume from a start on: the size of the name's record.
pub fn look(b: &[u8], name: &[u8], start: usize) -> Result<usize, LookError>
    ensures { found_meaning result ≡ looked_at name.now start b.now }
{
    if MAX_LENGTH < start {
        return Err(LookError::Other);
    }
    match named_size(b, name) {
        Some(size) => judged(&b[..size], start),
        None => Err(LookError::Other),
    }
}

// The bytes of the record at the front, if it stands whole and has the name.
fn named_size(b: &[u8], name: &[u8]) -> Option<usize>
    ensures value { result ≡ named_size name.now b.now }
    ensures within { IfSome result (λ size. size ≤ length b.now) }
{
    let size = record_size(b);
    (0 < size && size <= b.len() && same(record_name(b), name)).then_some(size)
}

// The record that is all of a slice, or its fault, whose place is counted from the volume's first byte.
fn judged(one: &[u8], start: usize) -> Result<usize, LookError>
    requires { start ≤ max_length }
    ensures { found_meaning result ≡ judged_alone start one.now }
{
    match journal::scan_by(one, one.len(), Rule::Plain) {
        Status::Whole { .. } => Ok(one.len()),
        Status::Torn { .. } => Ok(one.len()),
        Status::Damaged(Fault { refusal, place }) => Err(LookError::Damaged(Fault {
            refusal,
            place: start + place,
        })),
    }
}

// Writes the line of what a look-up came to, of the record at the front of some bytes.
pub fn looked_line(found: Result<usize, LookError>, b: &[u8], out: &mut [u8]) -> usize
    ensures { Put out.old 0 (looked_line b.now (found_meaning found)) out.new result }
{
    match found {
        Ok(size) => shown_line(b, size, out),
        Err(error) => unfound_line(error, b, out),
    }
}

// The line of a look-up that shows nothing.
fn unfound_line(error: LookError, b: &[u8], out: &mut [u8]) -> usize
    ensures { Put out.old 0 (looked_line b.now (found_meaning (Err error))) out.new result }
{
    match error {
        LookError::Absent => put_word(out, b"refused", 10),
        LookError::Other => put_word(out, b"declined", 14),
        LookError::Damaged(f) => put_words(
            out,
            b"damaged",
            f.refusal.number() as u64,
            f.place as u64,
        ),
    }
}

// The exit status that it decides.
pub fn looked_status(found: Result<usize, LookError>) -> command_io::Status
    ensures { result ≡ looked_status (found_meaning found) }
{
    match found {
        Ok(_) => command_io::Status::Done,
        Err(LookError::Absent) => command_io::Status::Refused,
        Err(LookError::Other) => command_io::Status::Refused,
        Err(LookError::Damaged(_)) => command_io::Status::Refused,
    }
}

// The line of the record in the first bytes.
fn shown_line(b: &[u8], size: usize, out: &mut [u8]) -> usize
    ensures { Put out.old 0 (first_line (take size b.now)) out.new result }
{
    if b.len() < size {
        return first_line(b, out);
    }
    first_line(&b[..size], out)
}

// The first line of the listing.
fn first_line(one: &[u8], out: &mut [u8]) -> usize
    ensures { Put out.old 0 (first_line one.now) out.new result }
{
    let cursor = journal_listing::start(one, Rule::Plain);
    journal_listing::next_line(one, cursor, out).size
}
