// Output gathered in a lent room, so that one write takes many texts: a text waits behind the others until the next has no place.
// Pieces so made and what still waits are the texts in their order (`gathered_whole`); that each piece is written, once, no contract sees.
ghost use Rattle.std.specs.Prelude.{◌≡◌};
ghost use Rattle.command_io.specs.Gather.{fits_behind, Gathers};

use crate::output::print;
use crate::places::inside;
use text_digits::put;

// Puts a text behind what waits, and answers how many bytes of the room wait then. Where it has no place there, what waits is written and the text
// starts the room anew; a text longer than the room is written at once. `output` starts the message where a write fails, as in
// `list: standard output`; then nothing more is written, and none is answered.
pub fn gather(
    rt: &HostRuntime,
    room: &mut [u8],
    waiting: usize,
    text: &[u8],
    output: &[u8],
) -> Option<usize>
    ensures { Gathers room.old waiting text.now result room.new }
{
    if fits(room, waiting, text) {
        return Some(put(room, waiting, text));
    }
    if !flush(rt, room, waiting, output) {
        return None;
    }
    if fits(room, 0, text) {
        return Some(put(room, 0, text));
    }
    print(rt, text, output).then_some(0)
}

// Writes what waits, and answers whether all of it is written; a message says so if not.
pub fn flush(rt: &HostRuntime, room: &[u8], waiting: usize, output: &[u8]) -> bool {
    print(rt, inside(waiting, room), output)
}

// Whether a text has place in the room behind what waits.
fn fits(room: &[u8], waiting: usize, text: &[u8]) -> bool
    ensures { result ≡ fits_behind room.now waiting text.now }
{
    waiting <= room.len() && text.len() <= room.len() - waiting
}
