// The log, a file by name.
// One that cannot be opened is said on standard error.
use command_io::{Status, fail_file_of, open_read, path_at};
use std::fs::File;

// Opens the log that the argument at a place names.
pub(crate) fn open_log(rt: &HostRuntime, at: usize) -> Result<File, Status> {
    let mut room = io::buffer();
    let path = path_at(rt, at, &mut room)?;
    match open_read(rt, path) {
        Ok(file) => Ok(file),
        Err(e) => Err(fail_file_of(rt, path, e)),
    }
}
