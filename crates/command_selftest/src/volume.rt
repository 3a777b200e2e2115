// The stored volume: its listing, and its last record appended again, cut after each of its bytes and then whole.
// What is expected are the stored bytes.
ghost use Rattle.std.specs.Prelude.{◌≡◌, ◌≤◌, length};
ghost use Rattle.std.proofs.Math.Option.{none};
ghost use Rattle.text_digits.specs.Same.{same_bytes};
ghost use Rattle.journal_spec.specs.Profile.{plain};
ghost use Rattle.journal_spec.specs.Request.{up_to};
ghost use Rattle.journal_spec.specs.Request as Request;
ghost use Rattle.journal_spec.specs.Append.{append_of};

use crate::stored::{CHANCES, DAY, LISTING, NAME, SIZE, START, TIMES, VOLUME};
use journal::Rule;
use journal_listing::{Cursor, MAX_LINE};
use text_digits::{put, same};

// How many calls the listing takes: a line for each of 12 records, that of the end state, and one that is empty.
const LINES: usize = 14;

// The place behind a line, and the cursor there.
#[derive(Clone, Copy)]
struct Placed {
    at: usize,
    cursor: Cursor,
}

// Whether the volume's listing is the stored one. Both stand in rooms of zeros.
pub(crate) fn is_listed() -> bool {
    let mut out = [0u8; 1024];
    let mut placed = Placed {
        at: 0,
        cursor: journal_listing::start(&VOLUME, Rule::Plain),
    };
    for _ in 0..LINES {
        placed = put_line(&mut out, placed);
    }
    let mut wanted = [0u8; 1024];
    put(&mut wanted, 0, &LISTING);
    same(&out, &wanted)
}

// The next line, put behind those before it.
fn put_line(out: &mut [u8], placed: Placed) -> Placed {
    let mut text = [0u8; MAX_LINE];
    let line = journal_listing::next_line(&VOLUME, placed.cursor, &mut text);
    Placed {
        at: put(out, placed.at, &text[..line.size]),
        cursor: line.cursor,
    }
}

// Whether every cut of the last record leaves the stored bytes up to there, and lets the next append finish them.
pub(crate) fn are_cuts_finished() -> bool {
    (START..=SIZE).all(|cut| is_cut_finished(cut))
}

// Whether an append that is cut there leaves the volume up to there, and the next one the whole volume.
fn is_cut_finished(cut: usize) -> bool {
    let mut v = front(START);
    let budget = cut.saturating_sub(START);
    append_leaves(
        &mut v,
        START,
        DAY,
        &NAME,
        &CHANCES,
        &TIMES,
        budget,
        &front(cut),
    ) && append_leaves(&mut v, cut, DAY, &NAME, &CHANCES, &TIMES, SIZE, &VOLUME)
}

// The volume's first bytes, and zeros behind them.
fn front(size: usize) -> [u8; SIZE]
    ensures { 632 ≡ length result }
{
    let mut v = VOLUME;
    if let Some(behind) = v.get_mut(size..) {
        behind.fill(0);
    }
    v
}

// Whether an append with a budget leaves these bytes.
pub(crate) fn append_leaves(
    v: &mut [u8],
    len: usize,
    day: u16,
    name: &[u8],
    chances: &[u32],
    times: &[u32],
    budget: usize,
    wanted: &[u8],
) -> bool
    ensures { result ≡ same_bytes (append_of (record { slice = v.old; len = len })
        (record {
          day = day;
          name = name.now;
          chances = chances.now;
          source = Request.times times.now;
          budget = up_to budget;
          rule = plain;
          index = none;
        })
        ).journal.slice wanted.now }
{
    let _ = journal::append_upto(v, len, day, name, chances, times, budget);
    same(v, wanted)
}
