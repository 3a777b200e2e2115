// A number read from hexadecimal digits of a slice, or why it is refused.
// The digits are fixed in number: none may be left out, and none but the asked ones is looked at.
ghost use Rattle.std.specs.Prelude.{◌≡◌, ◌+◌, ◌≤◌, length};
ghost use Rattle.text_digits.specs.Hex.{read_hex, read_digits};

use crate::digit::digit_of;

// Why no number was read.
#[derive(Clone, Copy, Debug, PartialEq, Eq)]
pub enum HexError {
    // more digits were asked for than a u64 has
    TooWide,
    // the bytes run out before the last digit
    Short,
    // the place of the first byte that is no digit
    NoDigit(usize),
}

// The number in `width` digits from a place on.
#[tactic(auto, unfolding(crate::specs::Hex::read_hex))]
pub fn read_hex(s: &[u8], place: usize, width: usize) -> Result<u64, HexError>
    ensures { result ≡ read_hex s.now place width }
{
    if width > 16 {
        return Err(HexError::TooWide);
    }
    if s.len() < width || s.len() - width < place {
        return Err(HexError::Short);
    }
    digits_from(s, place, width)
}

// The digits one after another, where they all stand in the slice and fit a u64.
fn digits_from(s: &[u8], place: usize, width: usize) -> Result<u64, HexError>
    requires { (width ≤ 16) × (place + width ≤ length s.now) }
    ensures { result ≡ read_digits width s.now place 0 }
{
    let mut n: u64 = 0;
    for at in place..place + width {
        let Some(d) = digit_of(s[at]) else {
            return Err(HexError::NoDigit(at));
        };
        n = n * 16 + d;
    }
    Ok(n)
}
