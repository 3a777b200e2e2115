// What the commands ask the system for, over std: arguments, files by their names in bytes, standard error, and an error in words.
// A name of std's is text, so a name that is not UTF-8 is refused.
ghost use Rattle.std.specs.Prelude.{◌≤◌, length, IfSome};
ghost use Rattle.io.specs.Counts.{IsPrefixLen};

use std::env::{Env, FillError};
use std::fmt::InlineText;
use std::fs;
use std::io::{Error, ErrorKind};

// The argument at a place, put into the buffer; none where there is none, where it is empty, and where it is longer than the buffer.
pub fn arg<'a>(rt: &HostRuntime, at: usize, out: &'a mut [u8]) -> Option<&'a [u8]>
    ensures { IfSome result (λ word. length word.now ≤ length out.old) }
{
    match rt.arg(at, out) {
        Ok(0) => None,
        Ok(size) => Some(&out[..size]),
        Err(_) => None,
    }
}

// How many arguments there are, with the program's name.
pub fn arg_count(rt: &HostRuntime) -> usize {
    for i in 0..usize::MAX {
        let mut byte = [0u8; 1];
        if let Err(FillError::NotPresent) = rt.arg(i, &mut byte) {
            return i;
        }
    }
    usize::MAX
}

// A file's name as text; one that is not UTF-8 is an error.
pub fn text_of(path: &[u8]) -> Result<&str, Error> {
    match std::str::from_utf8(path) {
        Ok(text) => Ok(text),
        Err(_) => Err(Error::new(
            ErrorKind::InvalidInput,
            "a name that is not UTF-8 cannot be opened",
        )),
    }
}

// Opens a file to be read.
pub fn open_read(rt: &HostRuntime, path: &[u8]) -> Result<fs::File, Error> {
    fs::File::open(rt, text_of(path)?)
}

// Opens a file to be read and written, and leaves its bytes as they are.
pub fn open_update(rt: &HostRuntime, path: &[u8]) -> Result<fs::File, Error> {
    let mut how = fs::OpenOptions::new();
    how.read(true);
    how.write(true);
    how.open(rt, text_of(path)?)
}

// Makes a file, open to be written; a name that is taken is an error.
pub fn create(rt: &HostRuntime, path: &[u8]) -> Result<fs::File, Error> {
    let mut how = fs::OpenOptions::new();
    how.write(true);
    how.create_new(true);
    how.open(rt, text_of(path)?)
}

// Gives a file another name, in the place of what stands there.
pub fn rename(rt: &HostRuntime, from: &[u8], to: &[u8]) -> Result<(), Error> {
    fs::rename(rt, text_of(from)?, text_of(to)?)
}

// Takes a file's name away.
pub fn unlink(rt: &HostRuntime, path: &[u8]) -> Result<(), Error> {
    fs::remove_file(rt, text_of(path)?)
}

// Writes bytes to standard error, where they can be written.
pub fn write_error(rt: &HostRuntime, text: &[u8]) {
    let _ = rt.stderr().write_all(text);
}

// The same of a number.
pub fn write_error_decimal(rt: &HostRuntime, n: u64) {
    let mut text = [0u8; 20];
    let size = io::decimal(n, &mut text);
    write_error(rt, &text[..size]);
}

// A line on standard error: what failed, as the caller names it, a colon and the error's words.
pub fn fail_system(rt: &HostRuntime, what: &[u8], error: Error) {
    write_error(rt, what);
    write_error(rt, b": ");
    let said = InlineText::<256>::of(error);
    let words = said.as_str().as_bytes();
    write_error(rt, &words[..words_end(words)]);
    write_error(rt, b"\n");
}

// How many bytes of an error's words are the system's own: what stands before the error's number, as in `No such file or directory (os error 2)`.
fn words_end(words: &[u8]) -> usize
    ensures { IsPrefixLen result words.now }
{
    match words.iter().rposition(|c| *c == b'(') {
        Some(end) if 0 < end => end - 1,
        _ => words.len(),
    }
}
