// The words behind the options: FILE, DATE|DAY, NAME and the chances. More bytes of a name or more chances than a record holds are passed on, so
// that the library declines them: there is room for one more than the format allows.
ghost use Rattle.std.specs.Prelude.{◌≤◌, length, IfOk};

use crate::output::malformed;
use command_io::{
    Kind, Options, Stands, Status, apart, arg, argument, behind, fail, fail_argument, input_apart,
    is_guarded, kind_at, words_from,
};

// Whether there are enough words, and nothing is printed into a file that is read or written; if not, that is said.
pub(crate) fn judge_apart(rt: &HostRuntime, o: Options, kinds: &[Kind]) -> Result<(), Status> {
    if words_from(rt, o.first) < 3 {
        return Err(fail(
            rt,
            b"append takes FILE DATE|DAY NAME CHANCE.., and ticks on standard input, or a log behind --log; awaqlla --help says more",
        ));
    }
    let apart = apart(rt, kinds, o.first)
        && o.index.is_none_or(|at| apart(rt, kinds, at))
        && input_apart(rt, kinds);
    if apart { Ok(()) } else { Err(Status::Failed) }
}

// Whether FILE is a plain file or missing, and INDEX another one; if not, what is wrong is said.
pub(crate) fn judge_files(rt: &HostRuntime, o: Options, kinds: &[Kind]) -> Result<(), Status> {
    let mut room = [0u8; 2];
    if argument(rt, o.first, &mut room).is_empty() {
        return Err(fail(rt, b"FILE: an empty name"));
    }
    match kind_at(kinds, o.first).stands {
        Stands::Missing | Stands::Plain => judge_index(rt, o.index, kinds),
        Stands::Dangling => Err(fail_argument(rt, o.first, b"a link to a missing file")),
        Stands::Folder | Stands::Other => Err(fail_argument(rt, o.first, b"not a regular file")),
    }
}

// Whether the index, where one is kept, is not the volume.
fn judge_index(rt: &HostRuntime, index: Option<usize>, kinds: &[Kind]) -> Result<(), Status> {
    match index {
        Some(at) if is_guarded(kinds, at) => Err(fail_argument(
            rt,
            at,
            b"it is the volume, and its index is another file",
        )),
        _ => Ok(()),
    }
}

// The chances, as many as there is room for; one that is no number is an error, which is said.
pub(crate) fn read_chances<'a>(
    rt: &HostRuntime,
    o: Options,
    out: &'a mut [u32],
) -> Result<&'a [u32], Status>
    ensures { IfOk result (λ read. length read.now ≤ length out.old) }
{
    match chances(rt, behind(o.first, 3), out) {
        Ok(chances) => Ok(chances),
        Err(which) => Err(malformed(rt, b"CHANCE", which, b"1 to 500000")),
    }
}

// The chances from a place on; or which argument is none, counted from 1. All are read, so that one that is no number is found.
fn chances<'a>(rt: &HostRuntime, from: usize, out: &'a mut [u32]) -> Result<&'a [u32], usize>
    ensures { IfOk result (λ read. length read.now ≤ length out.old) }
{
    let mut count = 0;
    for i in from..command_io::arg_count(rt) {
        let Some(n) = chance(rt, i) else {
            return Err(i - from + 1);
        };
        if count < out.len() {
            out[count] = n;
            count += 1;
        }
    }
    Ok(&out[..count])
}

// The chance of an argument.
fn chance(rt: &HostRuntime, i: usize) -> Option<u32> {
    let mut room = [0u8; 32];
    command_io::read_number(arg(rt, i, &mut room)?, u32::MAX)
}
