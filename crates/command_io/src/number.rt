// A decimal number that is all of a text.
// A zero in front, a sign, a space or an empty text is no number.
ghost use Rattle.std.specs.Prelude.{◌≡◌, ◌≤◌, IfSome};
ghost use Rattle.command_io.specs.Arguments.{read_number};

use crate::digit::digit_after;

// The number, if it is at most so large.
pub fn read_number(text: &[u8], most: u32) -> Option<u32>
    ensures value { result ≡ read_number most text.now }
    ensures bound { IfSome result (λ n. n ≤ most) }
{
    if text.is_empty() {
        return None;
    }
    let mut number = Some(0);
    for (i, c) in text.iter().enumerate() {
        number = digit_after(0 < i, number, *c, most);
    }
    number
}
