// The command slots, the planner's report: a head, and for each name of the volume's index the line of its last record, by name; crate journal_report
// makes them. Columns line up under the head; or tabs separate them, and there is no head. Then the end state.
use crate::input::{MAX_CHANCES, chances, wrong_chance};
use command_io::{
    Kind, Options, Status, fail, flush, gather, input_room, inside, write_error,
    write_error_decimal,
};
use command_list::{close_with, read_volume};
use journal_index::index_room;
use journal_report::{Begun, Layout, begin, entry_line, head_line};

// What a write that fails is said of.
const OUTPUT: &[u8] = b"awaqlla: standard output: it cannot be written";

// A volume with its index, which has so many names, how its lines are laid out, and the chances asked for.
#[derive(Clone, Copy)]
struct Table<'a> {
    v: &'a [u8],
    index: &'a [u8],
    names: usize,
    layout: Layout,
    asked: &'a [u32],
}

// The command.
pub fn slots(rt: &HostRuntime, o: Options, kinds: &[Kind]) -> Status {
    let first = o.first.wrapping_add(1);
    if 99 < first {
        return fail(rt, b"slots: too many words");
    }
    if let Some(wrong) = wrong_chance(rt, first) {
        return refuse_chance(rt, wrong);
    }
    let mut room = input_room();
    match read_volume(rt, o.first, kinds, &mut room) {
        Ok(v) => print_slots(rt, v, o.tabs, first),
        Err(unread) => Status::from(unread),
    }
}

// The chance among the arguments, counted from 0, that is none, or one too many.
fn refuse_chance(rt: &HostRuntime, which: usize) -> Status {
    write_error(rt, b"awaqlla: CHANCE ");
    write_error_decimal(rt, which.wrapping_add(1) as u64);
    if MAX_CHANCES <= which {
        write_error(rt, b": there are at most 8\n");
    } else {
        write_error(
            rt,
            b": not a decimal number from 1 to 999999 without leading zeros\n",
        );
    }
    Status::Failed
}

// The slots with the limits at the chances among the arguments from one on, and then the end state. The volume is scanned once.
fn print_slots(rt: &HostRuntime, v: &[u8], tabs: bool, first: usize) -> Status {
    let mut room = [0u32; MAX_CHANCES];
    let asked = chances(rt, first, &mut room);
    let mut index = index_room();
    let Begun {
        status,
        names,
        width,
    } = begin(v, &mut index);
    let table = Table {
        v,
        index: &index,
        names,
        layout: Layout { name: width, tabs },
        asked,
    };
    close_with(rt, v, status, table.print(rt))
}

impl<'a> Table<'a> {
    // The head and the lines, gathered, so that a write takes many; whether they were written.
    fn print(&self, rt: &HostRuntime) -> bool {
        let mut room = io::large_buffer();
        match self.gather_lines(rt, &mut room) {
            Some(waiting) => flush(rt, &room, waiting, OUTPUT),
            None => false,
        }
    }

    // The same, gathered in the room; how many bytes wait there, none where a write failed.
    fn gather_lines(&self, rt: &HostRuntime, room: &mut [u8]) -> Option<usize> {
        let mut waiting = self.put_head(room);
        for k in 0..self.names {
            waiting = self.gather_line(rt, k, room, waiting)?;
        }
        Some(waiting)
    }

    // The head, where there are lines below it and no tabs; how many bytes it takes.
    fn put_head(&self, room: &mut [u8]) -> usize {
        if self.layout.tabs || self.names == 0 {
            0
        } else {
            head_line(self.layout.name, room)
        }
    }

    // The line of an entry, behind what waits.
    fn gather_line(
        &self,
        rt: &HostRuntime,
        k: usize,
        room: &mut [u8],
        waiting: usize,
    ) -> Option<usize> {
        let mut out = [0u8; journal_report::MAX_LINE];
        let size = entry_line(self.v, self.index, k, self.layout, self.asked, &mut out);
        gather(rt, room, waiting, inside(size, &out), OUTPUT)
    }
}
