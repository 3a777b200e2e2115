// A date's text YYYY-MM-DD: by value, and put into a lent line.
// Every day has a year of four digits, so the text has ten bytes.
// The line and the place in it stay two parameters, for the reason in crate text_digits.
ghost use Rattle.std.specs.Prelude.{◌≡◌};
ghost use Rattle.text_digits.specs.Text.{Put};
ghost use Rattle.text_dates.specs.Iso.{iso_of};

use crate::date::date_of;
use text_digits::{decimal_into, put};

// The text of a day's date.
pub fn iso_of(day: u16) -> [u8; 10]
    ensures { result ≡ iso_of day }
{
    let date = date_of(day);
    let mut out = [b'-'; 10];
    decimal_into(date.year, &mut out[..4]);
    decimal_into(date.month, &mut out[5..7]);
    decimal_into(date.day, &mut out[8..]);
    out
}

// Puts a day's date into the line from a place on, and answers the place behind it.
pub fn put_date(line: &mut [u8], place: usize, day: u16) -> usize
    ensures { Put line.old place (iso_of day) line.new result }
{
    put(line, place, &iso_of(day))
}
