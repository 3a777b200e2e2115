// A text as it is shown in a message: every byte that is not printable ASCII as an escape.
// It is put into a lent line, as far as there is room.
ghost use Rattle.std.specs.Prelude.{◌≡◌};
ghost use Rattle.text_digits.specs.Text.{Put};
ghost use Rattle.command_io.specs.Shown.{is_printable, escape_of, shown_byte, shown_of};

use text_digits::{hex_into, put};

// Puts a text as it is shown into a line from a place on, and answers the place behind it.
pub fn put_shown(line: &mut [u8], place: usize, text: &[u8]) -> usize
    ensures { Put line.old place (shown_of text.now) line.new result }
{
    let mut at = place;
    for c in text {
        at = put_shown_byte(line, at, *c);
    }
    at
}

// One byte of it.
fn put_shown_byte(line: &mut [u8], place: usize, c: u8) -> usize
    ensures { Put line.old place (shown_byte c) line.new result }
{
    if is_printable(c) {
        put(line, place, &[c])
    } else {
        put(line, place, &escape_of(c))
    }
}

// The escape of a byte.
fn escape_of(c: u8) -> [u8; 4]
    ensures { result ≡ escape_of c }
{
    let mut out = *b"\\x00";
    hex_into(c as u64, &mut out[2..]);
    out
}

// Whether a byte is printable ASCII.
fn is_printable(c: u8) -> bool
    ensures { result ≡ is_printable c }
{
    31 < c && c < 127
}
