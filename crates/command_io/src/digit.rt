// One digit more of a decimal number, up to a largest number.
// A byte that is no digit, a digit behind a 0, or a number that grows too large leaves none, and none stays none.
ghost use Rattle.std.specs.Prelude.{◌≡◌};
ghost use Rattle.command_io.specs.Arguments.{is_zero, with_digit, digit_after};

// What a word has come to, with one byte more; `inside` says whether it has a byte already.
pub(crate) fn digit_after(inside: bool, number: Option<u32>, c: u8, most: u32) -> Option<u32>
    ensures { result ≡ digit_after most inside number c }
{
    with_digit(inside, number?, c, most)
}

// The number with a digit behind it.
fn with_digit(inside: bool, n: u32, c: u8, most: u32) -> Option<u32>
    ensures { result ≡ with_digit most inside n c }
{
    if is_zero(inside, n) || c < b'0' || b'9' < c {
        return None;
    }
    let longer = n as u64 * 10 + (c - b'0') as u64;
    if (most as u64) < longer {
        return None;
    }
    Some(longer as u32)
}

// Whether the word so far is 0.
fn is_zero(inside: bool, n: u32) -> bool
    ensures { result ≡ is_zero inside n }
{
    inside && n == 0
}
