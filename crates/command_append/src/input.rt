// What an append takes before the volume is locked, so that no append waits for another's input: the words are judged, and the ticks or the log's
// times are read into a lent buffer.
use crate::logs::take_log;
use crate::output::{fail_input, malformed_tick};
use crate::words::{judge_apart, judge_files, read_chances};
use command_date::day_or_date;
use command_io::{Kind, Options, Status, await_input, behind, fail, input_room, read_input};

// The most bytes of the ticks' text.
const MAX_TEXT: usize = 65_536;

// Judges the words, and reads the ticks to the buffer's front; how many they are, or the status where the command is over.
pub fn take(
    rt: &HostRuntime,
    o: Options,
    kinds: &[Kind],
    ticks: &mut [u32],
) -> Result<usize, Status> {
    judge_apart(rt, o, kinds)?;
    day_or_date(rt, behind(o.first, 1))?;
    judge_files(rt, o, kinds)?;
    let mut room = [0u32; 9];
    read_chances(rt, o, &mut room)?;
    if o.log {
        take_log(rt, o, ticks)
    } else {
        take_text(rt, ticks)
    }
}

// The ticks' text.
fn take_text(rt: &HostRuntime, ticks: &mut [u32]) -> Result<usize, Status> {
    await_input(
        rt,
        b"ticks, separated by white space; Ctrl-D behind a line end ends them",
    );
    let mut input = rt.stdin();
    let mut room = input_room();
    match read_input(&mut input, &mut room) {
        Ok(text) if text.len() <= MAX_TEXT => take_ticks(rt, text, ticks),
        Ok(_) => Err(fail(rt, b"standard input: more than 65536 bytes")),
        Err(unread) => Err(fail_input(rt, unread.error)),
    }
}

// The ticks of a text.
fn take_ticks(rt: &HostRuntime, text: &[u8], ticks: &mut [u32]) -> Result<usize, Status> {
    command_io::read_numbers(text, u32::MAX, ticks).map_err(|malformed| malformed_tick(
        rt,
        malformed.before,
    ))
}
