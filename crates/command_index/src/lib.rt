// `awaqlla index` (request 2026-08): --make FILE INDEX, --check FILE INDEX, and FILE INDEX NAME, which looks a name up.
// The output is a verdict or a record's line; what is wrong with the words or a file is said on standard error.
#![tactic(auto)]

mod files;
mod found;
mod made;
mod output;
mod verdict;

use command_io::{
    Kind, Options, Status, apart, arg, behind, fail, fail_argument, input_room, is_guarded,
    read_named, readable, words_from,
};
pub use found::{LookError, look, looked_line};
pub use made::indexed;
pub use verdict::{checked_line, made_line};

// Whether words and files are as they should be; if not, what is wrong is said and the command is over.
pub fn judge(rt: &HostRuntime, o: Options, kinds: &[Kind]) -> Result<(), Status> {
    judge_words(rt, o)?;
    if !readable(rt, kinds, o.first) {
        return Err(Status::Failed);
    }
    let index = behind(o.first, 1);
    if o.make {
        return judge_made(rt, index, kinds);
    }
    if readable(rt, kinds, index) {
        Ok(())
    } else {
        Err(Status::Failed)
    }
}

// Whether there are as many words as the options ask for; if not, that is said.
fn judge_words(rt: &HostRuntime, o: Options) -> Result<(), Status> {
    let (wanted, what): (usize, &[u8]) = if o.make {
        (
            2,
            b"index takes --make FILE INDEX; awaqlla --help says more",
        )
    } else if o.check {
        (
            2,
            b"index takes --check FILE INDEX; awaqlla --help says more",
        )
    } else {
        (
            3,
            b"index takes FILE INDEX NAME, or --make or --check FILE INDEX; awaqlla --help says more",
        )
    };
    if words_from(rt, o.first) == wanted {
        Ok(())
    } else {
        Err(fail(rt, what))
    }
}

// An INDEX that is written is another file than the volume, and nothing is printed into it.
fn judge_made(rt: &HostRuntime, index: usize, kinds: &[Kind]) -> Result<(), Status> {
    if !apart(rt, kinds, index) {
        return Err(Status::Failed);
    }
    if is_guarded(kinds, index) {
        return Err(fail_argument(
            rt,
            index,
            b"it is the volume, and its index is another file",
        ));
    }
    Ok(())
}

// The index made, checked, or a name looked up in it.
pub fn index(rt: &HostRuntime, o: Options) -> Status {
    let answered = if o.make {
        make(rt, o.first)
    } else if o.check {
        check(rt, o.first)
    } else {
        look_up(rt, o.first)
    };
    answered.unwrap_or_else(|failed| failed)
}

// `--make`: the volume is read, then its index is made. The file gets the index where one is made.
fn make(rt: &HostRuntime, at: usize) -> Result<Status, Status> {
    let mut room = input_room();
    let v = read_named(rt, at, &mut room)?;
    let mut index = journal_index::index_room();
    let made = indexed(v, &mut index);
    if let Ok(size) = made {
        files::write_index(rt, behind(at, 1), &index[..size])?;
    }
    Ok(output::answered_made(rt, made))
}

// `--check`: the volume is read, then the index. What stands behind the longest index is not read: it does not matter.
fn check(rt: &HostRuntime, at: usize) -> Result<Status, Status> {
    let mut room = input_room();
    let v = read_named(rt, at, &mut room)?;
    let mut index_room = journal_index::index_room();
    let index = read_named(rt, behind(at, 1), &mut index_room)?;
    Ok(output::answered_checked(rt, v, index))
}

// A look-up: the index is read, and of the volume one record. Of bytes that are no whole index nothing is taken. A name of more than 32 bytes is read as
// the empty one, which no record has either.
fn look_up(rt: &HostRuntime, at: usize) -> Result<Status, Status> {
    let mut room = journal_index::index_room();
    let index = read_named(rt, behind(at, 1), &mut room)?;
    if !journal_entries::is_index(index) {
        return Ok(output::answered_found(rt, Err(LookError::Other), b""));
    }
    let mut name_room = [0u8; 32];
    let name = arg(rt, behind(at, 2), &mut name_room).unwrap_or(b"");
    match journal_entries::look_up(index, name) {
        Some(start) => look_at(rt, at, start, name),
        None => Ok(output::answered_found(rt, Err(LookError::Absent), b"")),
    }
}

// The record there.
fn look_at(rt: &HostRuntime, at: usize, start: usize, name: &[u8]) -> Result<Status, Status> {
    let mut room = found::record_room();
    let record = files::read_record(rt, at, start, &mut room)?;
    Ok(output::answered_found(rt, look(record, name, start), record))
}
