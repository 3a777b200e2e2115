// Decimal numbers separated by white space, stored in a lent buffer one behind another. Those that have no room are read
// and left out. Reading stops counting at the first word that is no number.
ghost use Rattle.std.specs.Prelude.{◌≡◌, ℕ, List, [], ◌∷◌, ◌++◌, if◌then◌else◌};
ghost use Rattle.text_digits.specs.Text.{Put};
ghost use Rattle.command_io.specs.Arguments.{is_space};
ghost use Rattle.command_io.specs.Numbers.{Read, Reads, Stores, closed_of, turn_of, numbers_of};

use crate::digit::digit_after;

// A word that is no number, and how many numbers are stored of the words before it.
#[derive(Clone, Copy, Debug, PartialEq, Eq)]
pub struct Malformed {
    pub before: usize,
}

// How many numbers are stored, whether a word is being read, and what its bytes so far have come to. `pending` is none
// from the first word on that is no number.
#[derive(Clone, Copy)]
pub(crate) struct Reading {
    pub(crate) count: usize,
    pub(crate) inside: bool,
    pub(crate) pending: Option<u32>,
}

// Stores the numbers of a text, each at most so large, as many as the buffer has room for; how many are stored.
pub fn read_numbers(text: &[u8], most: u32, out: &mut [u32]) -> Result<usize, Malformed>
    ensures { Stores out.old (numbers_of most text.now) result out.new }
{
    let mut reading = Reading {
        count: 0,
        inside: false,
        pending: Some(0),
    };
    for c in text {
        reading = turn(reading, *c, most, out);
    }
    let Reading { count, pending, .. } = closed(reading, out);
    match pending {
        Some(_) => Ok(count),
        None => Err(Malformed { before: count }),
    }
}

// One byte more: white space ends a word, any other byte belongs to one.
fn turn(reading: Reading, c: u8, most: u32, out: &mut [u32]) -> Reading
    ensures { (d : List ℕ) (a : Read) → Reads d a reading out.old → Reads d (turn_of most a c) result out.new }
{
    if is_space(c) {
        return closed(reading, out);
    }
    Reading {
        count: reading.count,
        inside: true,
        pending: digit_after(reading.inside, reading.pending, c, most),
    }
}

// The end of a word, if one is being read: its number is stored.
fn closed(reading: Reading, out: &mut [u32]) -> Reading
    ensures { (d : List ℕ) (a : Read) → Reads d a reading out.old → Reads d (closed_of a) result out.new }
{
    let Reading {
        count,
        inside,
        pending,
    } = reading;
    match pending {
        Some(n) => Reading {
            count: store_if(inside, out, count, n),
            inside: false,
            pending: Some(0),
        },
        None => Reading {
            count,
            inside,
            pending: None,
        },
    }
}

// Stores a number behind those that stand, if it is wanted and has room, and answers the place behind it.
fn store_if(wanted: bool, out: &mut [u32], at: usize, n: u32) -> usize
    ensures { (d ns : List ℕ) → Put d 0 ns out.old at
        → Put d 0 (ns ++ (if wanted then n ∷ [] else [])) out.new result }
{
    if !wanted {
        return at;
    }
    if at < out.len() {
        out[at] = n;
        return at + 1;
    }
    at
}

// Whether a byte is a space or one of tab, line feed, vertical tab, form feed and carriage return.
fn is_space(c: u8) -> bool
    ensures { result ≡ is_space c }
{
    matches!(c, b' ' | 9..=13)
}
