// What this program was made of: the line that stands behind the program in its own file, which tools/program puts there.
use command_io::{Status, inside, write_error};
use std::fs::File;
use std::io::{Error, Read, Seek, SeekFrom};

// --version; the status.
pub(crate) fn say_version(rt: &HostRuntime) -> Status {
    let mut tail = [0u8; 256];
    let size = read_tail(rt, &mut tail).unwrap_or(0);
    let line = last_line(inside(size, &tail));
    if line.starts_with(b"awaqlla ") {
        write(rt, line)
    } else {
        write(rt, b"awaqlla of an unknown version\n")
    }
}

// The last bytes of the program's file.
fn read_tail(rt: &HostRuntime, out: &mut [u8; 256]) -> Result<usize, Error> {
    let mut file = File::open(rt, "/proc/self/exe")?;
    file.seek(SeekFrom::End(-256))?;
    file.read(out)
}

// The last line, with its end.
fn last_line(tail: &[u8]) -> &[u8] {
    let Some((_, front)) = tail.split_last() else {
        return tail;
    };
    match front.iter().rposition(|byte| *byte == b'\n') {
        Some(end) => &tail[end + 1..],
        None => tail,
    }
}

// Writes a text to standard output; the status.
fn write(rt: &HostRuntime, text: &[u8]) -> Status {
    match rt.stdout().write_all(text) {
        Ok(()) => Status::Done,
        Err(_) => {
            write_error(rt, b"awaqlla: standard output: it cannot be written\n");
            Status::Failed
        }
    }
}
