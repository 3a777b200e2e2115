// What the programs that open files share: the three standard streams, a file read to its end, the sync of a file's folder, and what is said of a
// file.
// `program` starts each message, as in `append: `.
ghost use Rattle.std.specs.Prelude.{◌≤◌, length, IfErr, IfOk};

use crate::input::{Unread, read_input, refused};
use crate::message::{fail, fail_file_of};
use crate::path::folder_end;
use crate::system::{arg, fail_system, open_read, write_error};
use std::io::Error;
use std::os::fd::AsFd;

// The system's number for a descriptor that is closed.
const EBADF: i32 = 9;

// Whether all three streams are open. Where one is closed, a file that is opened takes its number, and what is printed there lands in the
// file: so no file is opened then. What can be said is said.
pub fn streams_are_open(rt: &HostRuntime, program: &[u8]) -> bool {
    if is_closed(rt.stderr()) {
        return false;
    }
    if is_closed(rt.stdin()) {
        complain(rt, program, b"standard input: it is closed");
        return false;
    }
    if is_closed(rt.stdout()) {
        complain(rt, program, b"standard output: it is closed");
        return false;
    }
    true
}

// Whether a descriptor is closed: asking for another of the same file then fails with EBADF.
fn is_closed<F: AsFd + Drop>(stream: F) -> bool {
    match stream.as_fd().try_clone_to_owned() {
        Ok(_) => false,
        Err(e) => e.raw_os_error() == Some(EBADF),
    }
}

// Reads the file that an argument names to its end, or as much as there is room for; where that fails, what failed is said. `nameless` is what is
// wrong with a name that is no path.
pub fn read_argument<'a>(
    rt: &HostRuntime,
    program: &[u8],
    i: usize,
    nameless: &[u8],
    out: &'a mut [u8],
) -> Result<&'a [u8], Unread>
    ensures ok { IfOk result (λ read. length read.now ≤ length out.old) }
    ensures err { IfErr result (λ unread. unread.read ≤ length out.old) }
{
    let mut room = io::buffer();
    let Some(path) = arg(rt, i, &mut room) else {
        complain(rt, program, nameless);
        return Err(refused());
    };
    match read_whole(rt, path, out) {
        Ok(read) => Ok(read),
        Err(unread) => {
            fail_file(rt, program, path, unread.error);
            Err(unread)
        }
    }
}

// Reads a file; what fails is not said.
fn read_whole<'a>(rt: &HostRuntime, path: &[u8], out: &'a mut [u8]) -> Result<&'a [u8], Unread>
    ensures ok { IfOk result (λ read. length read.now ≤ length out.old) }
    ensures err { IfErr result (λ unread. unread.read ≤ length out.old) }
{
    match open_read(rt, path) {
        Ok(mut file) => read_input(&mut file, out),
        Err(error) => Err(Unread { read: 0, error }),
    }
}

// Reads the file that an argument names to its end, or as much as there is room for; where that fails, awaqlla says what failed.
pub fn read_named<'a>(rt: &HostRuntime, at: usize, out: &'a mut [u8]) -> Result<&'a [u8], Unread>
    ensures ok { IfOk result (λ read. length read.now ≤ length out.old) }
    ensures err { IfErr result (λ unread. unread.read ≤ length out.old) }
{
    let mut room = io::buffer();
    let Some(path) = arg(rt, at, &mut room) else {
        fail(rt, b"FILE: not a path");
        return Err(refused());
    };
    match read_whole(rt, path, out) {
        Ok(read) => Ok(read),
        Err(unread) => {
            fail_file_of(rt, path, unread.error);
            Err(unread)
        }
    }
}

// Syncs the folder of a path, so that the name of a file that is new stays. Where that fails, what failed is said.
pub fn sync_folder(rt: &HostRuntime, program: &[u8], path: &[u8]) -> bool {
    match folder_end(path) {
        0 => sync(rt, program, b"."),
        end => sync(rt, program, &path[..end]),
    }
}

// Syncs a folder.
fn sync(rt: &HostRuntime, program: &[u8], folder: &[u8]) -> bool {
    match sync_at(rt, folder) {
        Ok(()) => true,
        Err(e) => {
            fail_file(rt, program, folder, e);
            false
        }
    }
}

// The same; what fails is not said.
fn sync_at(rt: &HostRuntime, folder: &[u8]) -> Result<(), Error> {
    open_read(rt, folder)?.sync_all()
}

// What an error says of a file.
pub fn fail_file(rt: &HostRuntime, program: &[u8], path: &[u8], error: Error) {
    write_error(rt, program);
    fail_system(rt, path, error);
}

// What is wrong, on a line of its own.
pub fn complain(rt: &HostRuntime, program: &[u8], what: &[u8]) {
    write_error(rt, program);
    write_error(rt, what);
    write_error(rt, b"\n");
}
