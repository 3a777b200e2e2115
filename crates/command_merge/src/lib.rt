// `awaqlla merge FIRST SECOND OUT` (request 2026-09): two journal files, document 01's volumes, merged into a new one, which is made where the
// verdict is `merged` alone. The last line of the output is the verdict; what is wrong with the words or a file is said on standard error.
#![tactic(auto)]

mod files;
mod made;
mod output;
mod verdict;

use command_io::{
    Kind, Options, Stands, Status, argument, behind, fail, fail_argument, input_room, kind_at,
    read_named, readable, words_from,
};
pub use made::{merged, result_room};
pub use verdict::{status_of, verdict_line};

// Whether words and files are as they should be; if not, what is wrong is said and the command is over.
pub fn judge(rt: &HostRuntime, o: Options, kinds: &[Kind]) -> Result<(), Status> {
    if words_from(rt, o.first) != 3 {
        return Err(fail(
            rt,
            b"merge takes FIRST, SECOND and OUT; awaqlla --help says more",
        ));
    }
    if !readable(rt, kinds, o.first) || !readable(rt, kinds, behind(o.first, 1)) {
        return Err(Status::Failed);
    }
    judge_out(rt, behind(o.first, 2), kinds)
}

// OUT has a name, and there is nothing under it.
fn judge_out(rt: &HostRuntime, at: usize, kinds: &[Kind]) -> Result<(), Status> {
    let mut room = [0u8; 2];
    if argument(rt, at, &mut room).is_empty() {
        return Err(fail(rt, b"OUT: an empty name"));
    }
    if kind_at(kinds, at).stands != Stands::Missing {
        return Err(fail_argument(rt, at, b"it exists, and a merge writes over no file"));
    }
    Ok(())
}

// The merge, and its status.
pub fn merge(rt: &HostRuntime, o: Options, kinds: &[Kind]) -> Status {
    merge_files(rt, o.first, kinds).unwrap_or_else(|failed| failed)
}

// OUT's name is judged again, since it is locked now. Both journals are read, and the new file is made where the merge answers a length.
fn merge_files(rt: &HostRuntime, at: usize, kinds: &[Kind]) -> Result<Status, Status> {
    let out = behind(at, 2);
    judge_out(rt, out, kinds)?;
    let mut first_room = input_room();
    let first = read_named(rt, at, &mut first_room)?;
    let mut second_room = input_room();
    let second = read_named(rt, behind(at, 1), &mut second_room)?;
    let mut room = result_room();
    let answer = merged(first, second, &mut room);
    if let Ok(size) = answer {
        files::write_new(rt, out, &room[..size])?;
    }
    Ok(output::answered(rt, answer))
}
