// The index of the records that stand, made afresh into a lent buffer: one pass over the records finds the last one of each name, in the order of
// names; one over these finds the index's length, and where there is room a second one writes it.
ghost use Rattle.std.specs.Prelude.{◌≡◌, ◌≤◌, length, drop};
ghost use Rattle.journal_spec.specs.Profile.{plain};
ghost use Rattle.journal_spec.specs.Scan.{contents_of, scan_of};
ghost use Rattle.journal_spec.specs.Index.{index_bytes};
ghost use Rattle.journal_spec.specs.Append.{written, judge_index_room};
ghost use Rattle.journal_spec.specs.MakeIndex.{make_unless, make_index_of};
ghost use Rattle.journal_spec.proofs.Whole.{WholeBytes};
ghost use Rattle.journal_parts.specs.Front.{record_name};
ghost use Rattle.journal.specs.Answers.{meaning};
ghost use Rattle.journal.specs.Told.{by_number};
ghost use Rattle.journal.specs.Contents.{contents_read};
ghost use Rattle.journal_index.specs.Standing.{index_in};
ghost use Rattle.journal_index.specs.Made.{made_outcome};
ghost use Rattle.journal_index.specs.Places.{Named};

use crate::IndexError;
use journal::{Contents, Fault, Rule, Status, contents_of, status_of};
use journal_entries::{put_count, put_entry};
use journal_order::{Key, Keyed, MOST};
use refusals::Refusal;

// What a scan answers, and what making the index does.
#[derive(Clone, Copy)]
pub struct Scanned {
    pub status: Status,
    pub made: Result<usize, IndexError>,
}

// Makes the index of the journal of a length in a slice. Where it answers a length the index stands at the buffer's front, and the bytes behind it
// are as they were; else no byte is changed.
pub fn make_index(v: &[u8], len: usize, out: &mut [u8]) -> Result<usize, IndexError>
    ensures { made_outcome result out.new ≡ make_index_of (record { slice = v.now; len = len }) out.old }
{
    scan_and_index(v, len, out).made
}

// The same, with the scan's answer, by one pass over the journal.
pub fn scan_and_index(v: &[u8], len: usize, out: &mut [u8]) -> Scanned
    ensures { (meaning result.status ≡ scan_of plain v.now len)
        × (made_outcome result.made out.new ≡ make_index_of (record { slice = v.now; len = len }) out.old) }
{
    let x = contents_of(v, len, 0, Rule::Plain);
    let status = status_of(x, len);
    let made = make_standing(v, len, x, out);
    Scanned { status, made }
}

// The index of what stands.
fn make_standing(
    v: &[u8],
    len: usize,
    x: Result<Contents, Fault>,
    out: &mut [u8],
) -> Result<usize, IndexError>
    requires { by_number x ≡ contents_read 0 (contents_of plain v.now len) }
    ensures { made_outcome result out.new ≡ make_index_of (record { slice = v.now; len = len }) out.old }
{
    match x {
        Ok(contents) => make_whole(&v[..contents.committed], out),
        Err(fault) => Err(IndexError::Damaged(fault)),
    }
}

// The same of records end to end.
fn make_whole(b: &[u8], out: &mut [u8]) -> Result<usize, IndexError>
    requires { WholeBytes b.now }
    ensures { made_outcome result out.new
        ≡ make_unless (judge_index_room (index_in b.now) out.old) (index_in b.now) out.old }
{
    let mut places: [u16; MOST] = [0; MOST];
    let named = Keyed {
        bytes: b,
        key: Key::Name,
    };
    let count = named.latest_of(&mut places);
    make_named(b, &places[..count], out)
}

// The same, with the places of the records that the index names.
fn make_named(b: &[u8], places: &[u16], out: &mut [u8]) -> Result<usize, IndexError>
    requires { Named b.now places.now }
    ensures { made_outcome result out.new
        ≡ make_unless (judge_index_room (index_in b.now) out.old) (index_in b.now) out.old }
{
    let size = index_size(b, places);
    if out.len() < size {
        return Err(IndexError::Declined(Refusal::IndexRoom));
    }
    put_index(b, places, out);
    Ok(size)
}

// The first pass over the entries: the index's length.
fn index_size(b: &[u8], places: &[u16]) -> usize
    requires { Named b.now places.now }
    ensures { result ≡ length (index_bytes (index_in b.now)) }
{
    let mut size: usize = 2;
    for &at in places {
        size += 6 + name_at(b, at).len();
    }
    size
}

// The second: the entries behind one another, then their count in front.
fn put_index(b: &[u8], places: &[u16], out: &mut [u8])
    requires { Named b.now places.now × (length (index_bytes (index_in b.now)) ≤ length out.old) }
    ensures { out.new ≡ written out.old 0 (index_bytes (index_in b.now)) }
{
    let mut n: usize = 2;
    for &at in places {
        n = put_entry(out, n, name_at(b, at), usize::from(at));
    }
    put_count(out, places.len());
}

// The name of the record at a place.
pub(crate) fn name_at<'a>(b: &'a [u8], at: u16) -> &'a [u8]
    ensures { result.now ≡ record_name (drop at b.now) }
{
    let named = Keyed {
        bytes: b,
        key: Key::Name,
    };
    named.key_at(usize::from(at))
}
