// One stored line: a letter, the bits of x, a double's bits and the rest of the way behind it: how far the port's answer at x lies from there.
// A line is 45 bytes: letter, 16 digits, 16 digits, 8 digits, a byte before each, line end. The tools that write the lines say what each letter asks for.
ghost use Rattle.std.specs.Prelude.{◌≡◌, ◌^◌, ◌<◌};
ghost use Rattle.replay_numbers.specs.Numbers.{measured_at, measured_line, measured_numbers};

use crate::distance::distance;
use crate::kind::Kind;
use replay_lines::number_at;

// What a line tells of the port: its kind, x, and the distance there.
#[derive(Clone, Copy)]
pub(crate) struct Measured {
    pub kind: Kind,
    pub x: u64,
    pub distance: u64,
}

// The line against the port; none where it has another form.
pub(crate) fn measure(line: &[u8]) -> Option<Measured>
    ensures { result ≡ measured_line line.now }
{
    if line.len() != 45 || line[44] != b'\n' {
        return None;
    }
    measure_numbers(line, Kind::of(line[0])?)
}

// The numbers behind a letter.
fn measure_numbers(line: &[u8], kind: Kind) -> Option<Measured>
    ensures { result ≡ measured_numbers line.now kind }
{
    let x = number_at(line, 2, 16)?;
    let double = number_at(line, 19, 16)?;
    let part = number_at(line, 36, 8)?;
    Some(measure_at(kind, x, double, part))
}

// The port at x against the value that lies so far behind a double.
#[tactic(auto, unfolding(crate::specs::Numbers::measured_at))]
fn measure_at(kind: Kind, x: u64, double: u64, part: u64) -> Measured
    requires { part < 2 ^ 32 }
    ensures { result ≡ measured_at kind x double part }
{
    Measured {
        kind,
        x,
        distance: distance(kind.answer(x), kind.value(double), part),
    }
}
