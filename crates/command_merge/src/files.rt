// The new file. The result is written under a name of its own beside OUT, synced, and then given OUT's name, so that OUT is whole or not there
// whenever the program is stopped. A file that exists is never written over.
ghost use Rattle.std.specs.Prelude.{length, ◌≡◌, ◌≤◌};

use command_io::{
    Status, create, fail_file_of, fail_of, inside, open_read, path_at, rename, sync_folder, unlink,
    write_synced,
};
use std::fs;
use std::io::{Error, ErrorKind};
use text_digits::put;

// Writes the result to a new file, that of the argument at a place. Where it does not stand then, what failed is said.
pub(crate) fn write_new(rt: &HostRuntime, at: usize, merged: &[u8]) -> Result<(), Status> {
    let mut room = io::buffer();
    let path = path_at(rt, at, &mut room)?;
    let mut part_room = part_room();
    let part = part_name(path, &mut part_room);
    make_part(rt, part, path, merged)?;
    if let Err(failed) = give_name(rt, part, path) {
        take_away(rt, part);
        return Err(failed);
    }
    if sync_folder(rt, b"awaqlla: ", path) {
        return Ok(());
    }
    take_away(rt, path);
    Err(Status::Failed)
}

// Room for a path and what stands behind it.
fn part_room() -> [u8; 4_101]
    ensures { 4_101 ≡ length result }
{
    [0; 4_101]
}

// The name beside a path: the path and `.part`. OUT is locked, so that no other merge uses it.
fn part_name<'a>(path: &[u8], out: &'a mut [u8]) -> &'a [u8]
    ensures { length result.now ≤ length out.old }
{
    let end = put(out, 0, path);
    let size = put(out, end, b".part");
    inside(size, out)
}

// Makes the file under its own name; one that cannot be written and synced whole is taken away again. One that is there is none of this merge's, and
// stays.
fn make_part(rt: &HostRuntime, part: &[u8], path: &[u8], merged: &[u8]) -> Result<(), Status> {
    let made = match create(rt, part) {
        Ok(made) => made,
        Err(e) if e.kind() == ErrorKind::AlreadyExists => {
            return Err(fail_of(
                rt,
                part,
                b"it exists, as a merge that was stopped leaves it: delete it",
            ));
        }
        Err(e) => return Err(fail_file_of(rt, part, e)),
    };
    match write_closed(made, merged) {
        Ok(()) => Ok(()),
        Err(e) => {
            fail_file_of(rt, path, e);
            take_away(rt, part);
            Err(Status::Failed)
        }
    }
}

// Writes the bytes, syncs the file and closes it, before it gets its name.
fn write_closed(mut file: fs::File, merged: &[u8]) -> Result<(), Error> {
    write_synced(&mut file, 0, merged)
}

// Gives the file its name, where nothing stands under it.
fn give_name(rt: &HostRuntime, part: &[u8], path: &[u8]) -> Result<(), Status> {
    judge_free(rt, path)?;
    match rename(rt, part, path) {
        Ok(()) => Ok(()),
        Err(e) => Err(fail_file_of(rt, path, e)),
    }
}

// Whether nothing stands under a name; if something does, or that cannot be told, that is said.
fn judge_free(rt: &HostRuntime, path: &[u8]) -> Result<(), Status> {
    match open_read(rt, path) {
        Ok(_) => Err(fail_of(rt, path, b"it exists, and a merge writes over no file")),
        Err(e) if e.kind() == ErrorKind::NotFound => Ok(()),
        Err(e) => Err(fail_file_of(rt, path, e)),
    }
}

// Takes a file away that was made here.
fn take_away(rt: &HostRuntime, path: &[u8]) {
    if let Err(e) = unlink(rt, path) {
        fail_file_of(rt, path, e);
    }
}
