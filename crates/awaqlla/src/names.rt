// Names of files as arguments give them, and what stands at a name.
ghost use Rattle.std.specs.Prelude.{◌≤◌, length, IfSome};

use command_io::{folder_end, inside, text_of};
use std::fs;
use std::fs::Metadata;
use std::io::{Error, ErrorKind};
use std::os::unix::fs::MetadataExt;
use std::path::PathBuf;
use text_digits::put;

// Whether a name is one that std can open: text in UTF-8.
pub(crate) fn is_name(path: &[u8]) -> bool {
    text_of(path).is_ok()
}

// What stands at a name, behind its links.
pub(crate) fn found_at(rt: &HostRuntime, path: &[u8]) -> Result<Metadata, Error> {
    fs::metadata(rt, text_of(path)?)
}

// The same of the name itself, be it a link's.
pub(crate) fn link_at(rt: &HostRuntime, path: &[u8]) -> Result<Metadata, Error> {
    fs::symlink_metadata(rt, text_of(path)?)
}

// Whether an error says that there is no such file; any other error says nothing of the file.
pub(crate) fn is_missing(error: &Error) -> bool {
    matches!(error.kind(), ErrorKind::NotFound | ErrorKind::NotADirectory)
}

// Whether two are one file.
pub(crate) fn same_file(a: &Metadata, b: &Metadata) -> bool {
    a.dev() == b.dev() && a.ino() == b.ino()
}

// The path of a file that is there, without links.
pub(crate) fn real_path(rt: &HostRuntime, path: &[u8]) -> Result<PathBuf, Error> {
    fs::canonicalize(rt, text_of(path)?)
}

// So long a path cannot be opened.
const MAX_PATH: usize = 4_096;

// The path of a file without links, which need not be there; its folder must. None where it is not, or where the path is too long.
pub(crate) fn full_path<'a>(rt: &HostRuntime, path: &[u8], out: &'a mut [u8]) -> Option<&'a [u8]>
    ensures { IfSome result (λ full. length full.now ≤ length out.old) }
{
    let size = put_path(rt, path, out)?;
    Some(inside(size, out))
}

fn put_path(rt: &HostRuntime, path: &[u8], out: &mut [u8]) -> Option<usize> {
    match real_path(rt, path) {
        Ok(full) => Some(put(out, 0, full.as_str().as_bytes())),
        Err(_) => put_missing(rt, path, out),
    }
}

// The same of a file that is not there: its folder's path, and its name.
fn put_missing(rt: &HostRuntime, path: &[u8], out: &mut [u8]) -> Option<usize> {
    let (folder, name) = path.split_at(folder_end(path));
    match folder_of(rt, folder) {
        Ok(full) => put_in(full.as_str().as_bytes(), name, out),
        Err(_) => None,
    }
}

// The path of a folder without links; nothing is the folder that the program runs in.
fn folder_of(rt: &HostRuntime, folder: &[u8]) -> Result<PathBuf, Error> {
    let mut name = [0u8; 4_100];
    let at = put(&mut name, 0, folder);
    let end = put(&mut name, at, b".");
    real_path(rt, inside(end, &name))
}

// Puts a folder's path and a name in it.
fn put_in(folder: &[u8], name: &[u8], out: &mut [u8]) -> Option<usize> {
    let at = put(out, 0, folder);
    let begin = if matches!(folder, [b'/']) {
        at
    } else {
        put(out, at, b"/")
    };
    let end = put(out, begin, name);
    (end < MAX_PATH).then_some(end)
}
