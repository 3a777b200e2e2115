// A number in the bytes of a slice, the lowest byte first.
// Chances and times have four bytes: without a loop the compiler reads them in one load. One loop serves every other width.
ghost use Rattle.std.specs.Prelude.{◌≡◌, ◌+◌, ◌^◌, ◌≤◌, ◌<◌, ◌&&◌, leb, length};
ghost use Rattle.journal_spec.specs.Bytes.{number_at};
ghost use Rattle.journal_parts.specs.Numbers.{number_in};

// The number in the w bytes at a place.
pub fn number_at(b: &[u8], at: usize, w: usize) -> u64
    requires { (at + w ≤ length b.now) × (w ≤ 8) }
    ensures { (result ≡ number_at w at b.now) × (result < 256 ^ w) }
{
    if w == 4 {
        four_bytes_at(b, at)
    } else {
        bytes_at(b, at, w)
    }
}

// The number in four bytes.
fn four_bytes_at(b: &[u8], at: usize) -> u64
    requires { at + 4 ≤ length b.now }
    ensures { (result ≡ number_at 4 at b.now) × (result < 256 ^ 4) }
{
    u64::from(u32::from_le_bytes([b[at], b[at + 1], b[at + 2], b[at + 3]]))
}

// The number in any number of bytes.
fn bytes_at(b: &[u8], at: usize, w: usize) -> u64
    requires { (at + w ≤ length b.now) × (w ≤ 8) }
    ensures { (result ≡ number_at w at b.now) × (result < 256 ^ w) }
{
    let mut value = 0;
    for j in (0..w).rev() {
        value = value * 256 + u64::from(b[at + j]);
    }
    value
}

// Whether the w bytes at a place all stand, and are no more than a u64 has.
fn stands(b: &[u8], at: usize, w: usize) -> bool
    ensures { result ≡ (leb w 8 && leb (at + w) (length b.now)) }
{
    w <= 8 && w <= b.len() && at <= b.len() - w
}

// The same for a caller that has not looked whether the bytes stand: 0 where they do not all, or where they are more than a u64 has.
#[tactic(auto, unfolding(crate::specs::Numbers::number_in))]
pub fn number_in(b: &[u8], at: usize, w: usize) -> u64
    ensures { result ≡ number_in w at b.now }
{
    if stands(b, at, w) {
        number_at(b, at, w)
    } else {
        0
    }
}
