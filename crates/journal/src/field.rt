// One field of a record: a number of some bytes that has to lie in a range.
// It is judged when its last byte stands; a refusal's place is its first byte.
ghost use Rattle.std.specs.Prelude.{◌≡◌, ◌≤◌, ◌<◌, length};
ghost use Rattle.refusals.specs.Refusals.{number_of};
ghost use Rattle.journal.specs.Told.{told};
ghost use Rattle.journal.specs.Found.{field_at};

use crate::Fault;
use journal_parts::number_at;
use refusals::Refusal;

// Why the reading of a record stops: its bytes run out, or what stands there is refused.
#[derive(Clone, Copy)]
pub(crate) enum Stop {
    Short,
    Refused(Fault),
}

// The field of w bytes at a place, refused outside low to high.
pub(crate) fn field_at(
    b: &[u8],
    at: usize,
    w: usize,
    low: u64,
    high: u64,
    refusal: Refusal,
) -> Result<u64, Stop>
    requires { (at ≤ length b.now) × (w ≤ 8) × (0 < number_of refusal) }
    ensures { told result ≡ field_at w low high (number_of refusal) at b.now }
{
    if b.len() - at < w {
        return Err(Stop::Short);
    }
    let x = number_at(b, at, w);
    if x < low || high < x {
        return Err(Stop::Refused(Fault { refusal, place: at }));
    }
    Ok(x)
}
