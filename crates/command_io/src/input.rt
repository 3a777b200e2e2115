// What a reader gives until its end. A read that answers nothing ends the input, so that at a terminal one end of file is enough,
// and is told from a read that fails.
ghost use Rattle.std.specs.Prelude.{◌≡◌, ◌≤◌, length, replicate, IfErr, IfOk};
ghost use Rattle.command_io.specs.declared.ending.Status.TheVariants.{Failed};

use crate::ending::Status;
use std::io::{Error, ErrorKind, Read};

// Why a read failed, and how many bytes were read before: they stand at the buffer's front.
#[derive(Clone, Copy, Debug)]
pub struct Unread {
    pub read: usize,
    pub error: Error,
}

// The error alone, where it is yet to be said.
impl From<Unread> for Error {
    ghost from_gives = { λ unread error. error ≡ unread.error };

    fn from(unread: Unread) -> Error {
        unread.error
    }
}

// The status, where it is said what failed.
impl From<Unread> for Status {
    ghost from_gives = { λ _ status. status ≡ Failed };

    fn from(_unread: Unread) -> Status {
        Status::Failed
    }
}

// An input that is not read, and why not is said already.
pub fn refused() -> Unread
    ensures { result.read ≡ 0 }
{
    Unread {
        read: 0,
        error: Error::from(ErrorKind::InvalidInput),
    }
}

// Room for the longest journal, or ticks' text, and one byte more, which shows that an input is too long; all zero. The second `ensures` is
// what lending the array needs. Inputs stay in arrays that are lent on the stack: the project promises fixed memory and no heap.
pub fn input_room() -> [u8; 65_537]
    ensures value { result ≡ replicate 65_537 0 }
    ensures value_2 { 65_537 ≡ length result }
{
    [0; 65_537]
}

// Reads until the input ends, a read fails or the buffer is full, and answers what was read. How much was read is within the buffer, also where a read
// failed behind it.
pub fn read_input<'a, R: Read>(from: &mut R, out: &'a mut [u8]) -> Result<&'a [u8], Unread>
    ensures ok { IfOk result (λ read. length read.now ≤ length out.old) }
    ensures err { IfErr result (λ unread. unread.read ≤ length out.old) }
{
    let mut size = 0;
    while size < out.len() {
        match from.read(&mut out[size..]) {
            Ok(0) => break,
            Ok(more) => size += more,
            Err(error) => return Err(Unread { read: size, error }),
        }
    }
    Ok(&out[..size])
}
