// The words behind a volume's name: a name or a position, or chances.
// A name may start with a dash; `--` may stand before it.
ghost use Rattle.std.specs.Prelude.{◌≤◌, length};

use command_io::{Status, argument, fail, is_argument, read_number, words_from};
use limit::{MAX_CHANCE, MIN_CHANCE};

// The most chances of a record, and so of those asked for.
pub(crate) const MAX_CHANCES: usize = 8;

// Which record is asked for: the last of the name in an argument, or the one at a position, counted from 0.
#[derive(Clone, Copy, Debug, PartialEq, Eq)]
pub(crate) enum Asked {
    Name(usize),
    At(usize),
}

// Which record the words from a place on ask for. Where they ask for none, what is wrong is said.
pub(crate) fn question(rt: &HostRuntime, at: usize) -> Result<Asked, Status> {
    match words_from(rt, at) {
        1 => Ok(Asked::Name(at)),
        2 => option_at(rt, at),
        _ => Err(usage(rt)),
    }
}

// Two words: `--at I`, or `-- NAME`.
fn option_at(rt: &HostRuntime, at: usize) -> Result<Asked, Status> {
    let next = at.wrapping_add(1);
    if is_argument(rt, at, b"--") {
        return Ok(Asked::Name(next));
    }
    if !is_argument(rt, at, b"--at") {
        return Err(usage(rt));
    }
    let mut room = [0u8; 32];
    match read_number(argument(rt, next, &mut room), 65_535) {
        Some(n) => Ok(Asked::At(n as usize)),
        None => Err(fail(
            rt,
            b"I: not a decimal number from 0 to 65535 without leading zeros",
        )),
    }
}

// What the command record takes.
fn usage(rt: &HostRuntime) -> Status {
    fail(
        rt,
        b"record takes [--ticks] FILE and NAME or --at I; awaqlla --help says more",
    )
}

// Which of the arguments from one on, counted from 0, is no chance or one too many; none where all are chances.
pub(crate) fn wrong_chance(rt: &HostRuntime, first: usize) -> Option<usize> {
    let mut all = 0..words_from(rt, first);
    all.find(|n| MAX_CHANCES <= *n || !is_chance(rt, first.wrapping_add(*n)))
}

// Whether an argument is a chance.
fn is_chance(rt: &HostRuntime, i: usize) -> bool {
    chance(rt, i).is_some_and(|n| MIN_CHANCE <= n as u64)
}

// The chances among the arguments from one on, as many as there are and have room, put into the buffer.
pub(crate) fn chances<'a>(rt: &HostRuntime, first: usize, out: &'a mut [u32]) -> &'a [u32]
    ensures { length result.now ≤ length out.old }
{
    let count = words_from(rt, first).min(out.len());
    let asked = &mut out[..count];
    for (n, place) in asked.iter_mut().enumerate() {
        *place = chance(rt, first.wrapping_add(n)).unwrap_or(0);
    }
    asked
}

// The number in an argument, of those up to the largest chance.
fn chance(rt: &HostRuntime, i: usize) -> Option<u32> {
    let mut room = [0u8; 32];
    read_number(argument(rt, i, &mut room), MAX_CHANCE as u32)
}
