// One digit: its ASCII code from its value, and its value from a code.
// The digits are 0 to 9 and a to f, in lower case alone.
ghost use Rattle.std.specs.Prelude.{◌≡◌, ◌<◌};
ghost use Rattle.text_digits.specs.Hex.{glyph_of, digit_of};

// The value of a byte as a hexadecimal digit, where it is one.
#[tactic(auto, unfolding(crate::specs::Hex::digit_of))]
pub fn digit_of(c: u8) -> Option<u64>
    ensures { result ≡ digit_of c }
{
    match c {
        b'0'..=b'9' => Some(u64::from(c - b'0')),
        b'a'..=b'f' => Some(u64::from(c - b'a') + 10),
        _ => None,
    }
}

// The code of a digit.
#[tactic(auto, unfolding(crate::specs::Hex::glyph_of))]
pub(crate) fn glyph(d: u64) -> u8
    requires { d < 16 }
    ensures { result ≡ glyph_of d }
{
    if d < 10 {
        return b'0' + d as u8;
    }
    b'a' + (d - 10) as u8
}
