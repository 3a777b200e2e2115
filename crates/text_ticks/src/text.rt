// Whole ticks as text in milliseconds, put into a lent line. What has no room is left out, as in crate text_digits.
// A tick is 0.01 ms, so the two decimals are exact.
// The line and the place in it stay two parameters, for the reason in crate text_digits.
ghost use Rattle.std.specs.Prelude.{◌≡◌};
ghost use Rattle.text_digits.specs.Text.{Put};
ghost use Rattle.text_ticks.specs.Text.{hundredths, count_text, ticks_text};

use crate::whole::Count;
use text_digits::{decimal_into, put, put_decimal};

// The most bytes that a text takes: laws `up_text_most`, `near_text_most`.
pub const MAX_TEXT: usize = 18;

// Puts the milliseconds of whole ticks, or a dash where they are declined, and answers the place behind them.
#[tactic(auto, unfolding(crate::specs::Text::ticks_text))]
pub fn put_ticks(line: &mut [u8], place: usize, ticks: Option<Count>) -> usize
    ensures { Put line.old place (ticks_text ticks) line.new result }
{
    match ticks {
        Some(count) => put_milliseconds(line, place, count),
        None => put(line, place, b"-"),
    }
}

// Puts the milliseconds of a count, and answers the place behind them.
pub fn put_milliseconds(line: &mut [u8], place: usize, count: Count) -> usize
    ensures { Put line.old place (count_text count) line.new result }
{
    let p = if count.below {
        put(line, place, b"-")
    } else {
        place
    };
    put_hundredths(line, p, count.size)
}

// Whole milliseconds, a point and two digits.
fn put_hundredths(line: &mut [u8], place: usize, size: u64) -> usize
    ensures { Put line.old place (hundredths size) line.new result }
{
    let mut decimals = [0u8; 2];
    decimal_into(size % 100, &mut decimals);
    let p = put_decimal(line, place, size / 100);
    let q = put(line, p, b".");
    put(line, q, &decimals)
}
