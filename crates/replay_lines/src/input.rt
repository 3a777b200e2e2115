// Standard input: bytes until a buffer is full, and the end.
// A read that fails gives the same short count as the end, and one read more tells them apart.
ghost use Rattle.std.specs.Prelude.{◌≤◌, length};

use std::io::{Read, Stdin};

// Reads until the buffer is full, the input ends or a read fails, and answers how many bytes it put at the buffer's front.
pub fn read_full(rt: &HostRuntime, buf: &mut [u8]) -> usize
    ensures { result ≤ length buf.new }
{
    let mut input = rt.stdin();
    let mut done = 0;
    while done < buf.len() {
        let n = read_some(&mut input, &mut buf[done..]);
        if n == 0 {
            return done;
        }
        done += n;
    }
    done
}

// One read: how many bytes it put at the buffer's front, 0 where it failed too.
fn read_some(input: &mut Stdin, buf: &mut [u8]) -> usize
    ensures { result ≤ length buf.new }
{
    input.read(buf).unwrap_or(0)
}

// Whether nothing more can be read, and no read failed.
pub fn input_ended(rt: &HostRuntime) -> bool {
    let mut input = rt.stdin();
    let mut byte = [0u8; 1];
    matches!(input.read(&mut byte), Ok(0))
}
