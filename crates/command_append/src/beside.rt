// The index's file, which stands beside the volume's. It is read before the append and written after the volume is: where the program is stopped
// between, the index is stale, refusal 14 names it, and `index --make` makes it anew.
use command_io::{
    Held, Status, fail, fail_file_of, fail_of, inside, made, open_held, sync_folder, write_synced,
};
use std::fs;
use std::io::Error;

// The index's file, none where it is missing; and whether its bytes are an index or the first bytes of one, so that it may be written over.
#[derive(Drop)]
pub(crate) struct Beside {
    file: Option<fs::File>,
    begun: bool,
}

// Opens the index's file and reads it. A missing one, and an empty one, which a stop or a full disk leaves where it was made, are the index of an
// empty volume.
pub(crate) fn open_index(
    rt: &HostRuntime,
    path: &[u8],
    index: &mut [u8],
) -> Result<Beside, Status> {
    let Held { file, size } = open_held(rt, path, index)?;
    let begun = journal_index::is_begun(&index[..size]);
    if size == 0 {
        journal_entries::put_count(index, 0);
    }
    Ok(Beside { file, begun })
}

// The index's file, which is made where it is missing: with the index of an empty volume, as it was read, so that it is the volume's index until the
// volume is written. A file that is no index is not written over.
pub(crate) fn ready_index(
    rt: &HostRuntime,
    path: &[u8],
    beside: Beside,
) -> Result<fs::File, Status> {
    if !beside.begun {
        return Err(fail_of(rt, path, b"it is no index, and is not written over"));
    }
    match beside.file {
        Some(open) => Ok(open),
        None => make_index(rt, path),
    }
}

// Makes the index's file, with the index of an empty volume.
fn make_index(rt: &HostRuntime, path: &[u8]) -> Result<fs::File, Status> {
    let mut file = made(rt, path, None)?;
    if !sync_folder(rt, b"awaqlla: ", path) {
        return Err(Status::Failed);
    }
    match write_synced(&mut file, 0, b"\0\0") {
        Ok(()) => Ok(file),
        Err(e) => Err(fail_file_of(rt, path, e)),
    }
}

// Empties the file and gives it the index, so that a stop leaves the first bytes of an index and no mixture. Where that fails, what failed is said.
pub(crate) fn write_index(
    rt: &HostRuntime,
    path: &[u8],
    file: &mut fs::File,
    index: &[u8],
) -> Result<(), Status> {
    let end = journal_entries::end_of(index);
    match write_anew(file, inside(end.place, index)) {
        Ok(()) => Ok(()),
        Err(e) => {
            fail_file_of(rt, path, e);
            Err(fail(
                rt,
                b"the volume is extended and its index is not: awaqlla index --make makes it anew",
            ))
        }
    }
}

// Empties the file and gives it bytes.
fn write_anew(file: &mut fs::File, bytes: &[u8]) -> Result<(), Error> {
    file.set_len(0)?;
    write_synced(file, 0, bytes)
}
