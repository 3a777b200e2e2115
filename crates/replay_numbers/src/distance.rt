// How far a result lies from a true value, in units of the last place.
// Distances are whole numbers: 2^32 to a unit, and ten thousand to a unit for people.
ghost use Rattle.std.specs.Prelude.{◌≡◌, ◌^◌, ◌<◌};
ghost use Rattle.replay_numbers.specs.Numbers.{distance_of, steps_above, steps_below, ten_thousandths};

// What stands for a result of the other sign, or 2^31 doubles away and more.
const TOO_FAR: u64 = u64::MAX;

// The distance of a result from the true value that lies part / 2^32 of the way from the double with
// the bits `below` to the next one away from zero.
#[tactic(auto, using(std::proofs::lemmas::Bool::Decides::nat_tests), unfolding(crate::specs::Numbers::distance_of))]
pub(crate) fn distance(got: u64, below: u64, part: u64) -> u64
    requires { part < 2 ^ 32 }
    ensures { result ≡ distance_of got below part }
{
    if got / 0x8000000000000000 != below / 0x8000000000000000 {
        TOO_FAR
    } else if got < below {
        steps_below(below - got, part)
    } else {
        steps_above(got - below, part)
    }
}

// The same for a result so many doubles nearer to zero than that double.
#[tactic(auto, using(std::proofs::lemmas::Bool::Decides::nat_tests), unfolding(crate::specs::Numbers::steps_below))]
fn steps_below(steps: u64, part: u64) -> u64
    requires { part < 2 ^ 32 }
    ensures { result ≡ steps_below steps part }
{
    if steps < 0x80000000 {
        steps * 0x100000000 + part
    } else {
        TOO_FAR
    }
}

// The same for a result so many doubles farther from zero.
#[tactic(auto, using(std::proofs::lemmas::Bool::Decides::nat_tests), unfolding(crate::specs::Numbers::steps_above))]
fn steps_above(steps: u64, part: u64) -> u64
    ensures { result ≡ steps_above steps part }
{
    if steps < 0x80000000 {
        part.abs_diff(steps * 0x100000000)
    } else {
        TOO_FAR
    }
}

// A distance in ten-thousandths of a unit, rounded up.
#[tactic(auto, unfolding(crate::specs::Numbers::ten_thousandths))]
pub(crate) fn ten_thousandths(distance: u64) -> u64
    ensures { result ≡ ten_thousandths distance }
{
    let units = distance / 0x100000000;
    let rest = distance % 0x100000000;
    units * 10000 + (rest * 10000 + 0xffffffff) / 0x100000000
}
