// Files that a command writes: opened to be read and written, made where they are missing, written and synced.
// What fails is said with the file's name.
ghost use Rattle.std.specs.Prelude.{◌≤◌, length, IfOk};
ghost use Rattle.io.specs.Counts.{IsPrefixLen};

use crate::ending::Status;
use crate::input::read_input;
use crate::message::{fail, fail_file_of, fail_of};
use crate::system::{arg, create, open_update};
use std::fs;
use std::io::{Error, ErrorKind, Seek, SeekFrom, Write};

// A file that is opened, none where there is no such file, and how many bytes of it were read, of a missing one none.
#[derive(Drop)]
pub struct Held {
    pub file: Option<fs::File>,
    pub size: usize,
}

// The path at a place, put into the buffer. One that is empty or too long is an error, which is said.
pub fn path_at<'a>(rt: &HostRuntime, at: usize, out: &'a mut [u8]) -> Result<&'a [u8], Status>
    ensures { IfOk result (λ path. length path.now ≤ length out.old) }
{
    match arg(rt, at, out) {
        Some(path) => Ok(path),
        None => Err(fail(rt, b"FILE: an empty name, or one of more than 4096 bytes")),
    }
}

// Opens a file to be read and written, and reads it to its end or until the buffer is full. Where that fails, what failed is said.
pub fn open_held(rt: &HostRuntime, path: &[u8], out: &mut [u8]) -> Result<Held, Status>
    ensures { IfOk result (λ held. IsPrefixLen held.size out.new) }
{
    match open_update(rt, path) {
        Ok(file) => read_held(rt, path, file, out),
        Err(e) if e.kind() == ErrorKind::NotFound => Ok(Held {
            file: None,
            size: 0,
        }),
        Err(e) => Err(fail_file_of(rt, path, e)),
    }
}

// The same of a file that is open.
fn read_held(
    rt: &HostRuntime,
    path: &[u8],
    mut file: fs::File,
    out: &mut [u8],
) -> Result<Held, Status>
    ensures { IfOk result (λ held. IsPrefixLen held.size out.new) }
{
    if !has_places(&mut file) {
        return Err(fail_of(rt, path, b"not a regular file"));
    }
    match read_input(&mut file, out) {
        Ok(read) => Ok(Held {
            size: read.len(),
            file: Some(file),
        }),
        Err(unread) => Err(fail_file_of(rt, path, unread.error)),
    }
}

// Whether a position can be set, as in a regular file: a pipe and a terminal refuse it, and such devices as /dev/null stay at their start.
// The position is the start afterwards.
fn has_places(file: &mut fs::File) -> bool {
    matches!(file.seek(SeekFrom::Start(1)), Ok(1)) && matches!(file.seek(SeekFrom::Start(0)), Ok(0))
}

// The file, made where there is none; where that fails, what failed is said. A name that is taken although no file was found is a link to none.
pub fn made(rt: &HostRuntime, path: &[u8], file: Option<fs::File>) -> Result<fs::File, Status> {
    match file {
        Some(open) => Ok(open),
        None => make_new(rt, path),
    }
}

// Makes a file.
fn make_new(rt: &HostRuntime, path: &[u8]) -> Result<fs::File, Status> {
    match create(rt, path) {
        Ok(open) => Ok(open),
        Err(e) if e.kind() == ErrorKind::AlreadyExists => Err(fail_of(
            rt,
            path,
            b"a link to a missing file, or made by another program meanwhile",
        )),
        Err(e) => Err(fail_file_of(rt, path, e)),
    }
}

// Writes bytes to an open file from a place on, and syncs it; they are there where it answers no error.
pub fn write_synced(file: &mut fs::File, place: i64, bytes: &[u8]) -> Result<(), Error> {
    file.seek(SeekFrom::Start(place.cast_unsigned()))?;
    file.write_all(bytes)?;
    file.sync_all()
}
