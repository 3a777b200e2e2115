// Bytes put into a lent line, one text behind another.
// What has no room is left out, so that any line and any place are fine.
// The line and the place in it stay two parameters here and above: a struct of both that lends the line was tried. Its `put` proves, but two puts
// through it do not unless each contract also says that it still lends the same bytes; and each array filled at its front would need one.
ghost use Rattle.std.specs.Prelude.{◌≡◌, ◌-◌, ◌≤◌, min, length};
ghost use Rattle.std.proofs.Math.Seq.{paste};
ghost use Rattle.text_digits.specs.Hex.{decimal_digits};
ghost use Rattle.text_digits.specs.Text.{Put};

use crate::write::decimal_of;

// Puts text into the line from a place on, and answers the place behind it.
#[tactic(auto, unfolding(crate::specs::Text::room_for))]
pub fn put(line: &mut [u8], place: usize, text: &[u8]) -> usize
    ensures { Put line.old place text.now line.new result }
{
    let count = room_for(line.len(), place, text.len());
    copy(line, place, text, count);
    place + count
}

// Copies the first bytes of text into the line from a place on. A loop: `copy_from_slice` has the archive for C ask for memmove.
fn copy(line: &mut [u8], place: usize, text: &[u8], count: usize)
    requires { (count ≤ length line.old - place) × (count ≤ length text.now) }
    ensures { line.new ≡ paste line.old place text.now count }
{
    for i in 0..count {
        line[place + i] = text[i];
    }
}

// How many of the wanted bytes have room from a place on.
fn room_for(size: usize, place: usize, wanted: usize) -> usize
    ensures { result ≡ min wanted (size - place) }
{
    wanted.min(size.saturating_sub(place))
}

// Puts the decimal digits of a number, with no zero in front.
pub fn put_decimal(line: &mut [u8], place: usize, n: u64) -> usize
    ensures { Put line.old place (decimal_digits n) line.new result }
{
    let d = decimal_of(n);
    put(line, place, &d.digits[..d.count])
}
