// The files: one record of the volume is read at its place; the index is written whole, new or over the old one.
// A file that is no index, and not the first bytes of one, is not written over.
ghost use Rattle.std.specs.Prelude.{◌≤◌, length, IfOk};

use crate::found::MAX_LENGTH;
use command_io::{
    Held, Status, fail_file_of, fail_of, made, open_held, open_read, path_at, read_input,
    sync_folder, write_synced,
};
use std::fs;
use std::io::{Error, Seek, SeekFrom};

// Reads the volume that an argument names, from a record's start on, until the buffer is full or the file ends. Where that fails, what failed is said.
pub(crate) fn read_record<'a>(
    rt: &HostRuntime,
    at: usize,
    start: usize,
    out: &'a mut [u8],
) -> Result<&'a [u8], Status>
    ensures { IfOk result (λ read. length read.now ≤ length out.old) }
{
    let mut room = io::buffer();
    let path = path_at(rt, at, &mut room)?;
    match read_from(rt, path, start, out) {
        Ok(read) => Ok(read),
        Err(e) => Err(fail_file_of(rt, path, e)),
    }
}

// The same; what fails is not said. From the first byte on, anything that can be read will do, such as a pipe. A start beyond the longest volume is
// its end.
fn read_from<'a>(
    rt: &HostRuntime,
    path: &[u8],
    start: usize,
    out: &'a mut [u8],
) -> Result<&'a [u8], Error>
    ensures { IfOk result (λ read. length read.now ≤ length out.old) }
{
    let mut file = open_read(rt, path)?;
    if 0 < start {
        file.seek(SeekFrom::Start(start.min(MAX_LENGTH) as u64))?;
    }
    Ok(read_input(&mut file, out)?)
}

// Writes the index to the file that an argument names, which is made where it is missing. Where that fails, what failed is said.
pub(crate) fn write_index(rt: &HostRuntime, at: usize, index: &[u8]) -> Result<(), Status> {
    let mut path_room = io::buffer();
    let path = path_at(rt, at, &mut path_room)?;
    let mut room = journal_index::index_room();
    let Held { file, size } = open_held(rt, path, &mut room)?;
    if !journal_index::is_begun(&room[..size]) {
        return Err(fail_of(rt, path, b"it is no index, and is not written over"));
    }
    let open = match file {
        Some(open) => open,
        None => make_index(rt, path)?,
    };
    match write_over(open, index) {
        Ok(()) => Ok(()),
        Err(e) => Err(fail_file_of(rt, path, e)),
    }
}

// Makes the file.
fn make_index(rt: &HostRuntime, path: &[u8]) -> Result<fs::File, Status> {
    let file = made(rt, path, None)?;
    if sync_folder(rt, b"awaqlla: ", path) {
        Ok(file)
    } else {
        Err(Status::Failed)
    }
}

// Empties the file, writes the index and syncs it: stopped at any point, the file is the old index, or the first bytes of the new one, which a
// look-up and an append refuse by 14.
fn write_over(mut file: fs::File, index: &[u8]) -> Result<(), Error> {
    file.set_len(0)?;
    write_synced(&mut file, 0, index)
}
