// The journal's file. It is read once; where the append extends the journal a torn tail is cut off, and then the record's bytes are written
// behind the committed records, front to back: from then on the file is those records and a prefix of the new one.
ghost use Rattle.std.specs.Prelude.{◌≤◌};
ghost use Rattle.journal_spec.specs.Scan.{max_length};

use crate::beside::{open_index, ready_index, write_index};
use crate::extend::{Offer, extend};
use crate::output::answered;
use crate::words::read_chances;
use command_date::day_or_date;
use command_io::{
    Held, Options, Status, argument, behind, fail_file_of, input_room, made, open_held, path_at,
    sync_folder, write_synced,
};
use journal::{AppendError, Rule};
use std::fs;
use std::io::Error;

// The answer of an append, or the status where it is over before.
type Outcome = Result<Result<usize, AppendError>, Status>;

// Appends the ticks to the volume that FILE names, and answers the status.
pub fn append(rt: &HostRuntime, o: Options, ticks: &[u32]) -> Status {
    match append_words(rt, o, ticks) {
        Ok(answer) => answered(rt, answer),
        Err(over) => over,
    }
}

// The same; the answer.
fn append_words(rt: &HostRuntime, o: Options, times: &[u32]) -> Outcome {
    let day = day_or_date(rt, behind(o.first, 1))?;
    let mut name_room = [0u8; 33];
    let name = argument(rt, behind(o.first, 2), &mut name_room);
    let mut chance_room = [0u32; 9];
    let chances = read_chances(rt, o, &mut chance_room)?;
    let rule = if o.profile {
        Rule::Profile
    } else {
        Rule::Plain
    };
    let offer = Offer {
        day,
        rule,
        name,
        chances,
        times,
    };
    let mut path_room = io::buffer();
    let path = path_at(rt, o.first, &mut path_room)?;
    match o.index {
        Some(at) => append_beside(rt, path, at, offer),
        None => append_alone(rt, path, offer),
    }
}

// To the file alone. A missing one is empty.
fn append_alone(rt: &HostRuntime, path: &[u8], offer: Offer) -> Outcome {
    let mut room = input_room();
    let held = open_held(rt, path, &mut room)?;
    let extension = extend(&mut room, held.size, offer, &mut [], false);
    if let Ok(part) = extension {
        write_record(rt, path, held, part.start, &room[part.start..part.end])?;
    }
    Ok(extension.map(|part| part.end))
}

// To the file and to the index's, which the argument at a place names. The index's file is made before the volume is written, so that one that cannot
// be made leaves the volume as it was.
fn append_beside(rt: &HostRuntime, path: &[u8], at: usize, offer: Offer) -> Outcome {
    let mut path_room = io::buffer();
    let index_path = path_at(rt, at, &mut path_room)?;
    let mut index = journal_index::index_room();
    let beside = open_index(rt, index_path, &mut index)?;
    let mut room = input_room();
    let held = open_held(rt, path, &mut room)?;
    let extension = extend(&mut room, held.size, offer, &mut index, true);
    if let Ok(part) = extension {
        let mut file = ready_index(rt, index_path, beside)?;
        write_record(rt, path, held, part.start, &room[part.start..part.end])?;
        write_index(rt, index_path, &mut file, &index)?;
    }
    Ok(extension.map(|part| part.end))
}

// Makes a missing file, and gives the file the record. Before a file's first record, whoever made the file, its name is made to stay. Where that fails,
// what failed is said.
fn write_record(
    rt: &HostRuntime,
    path: &[u8],
    held: Held,
    start: usize,
    record: &[u8],
) -> Result<(), Status>
    requires { start ≤ max_length }
{
    let Held { file, size } = held;
    let mut open = made(rt, path, file)?;
    if start == 0 && !sync_folder(rt, b"awaqlla: ", path) {
        return Err(Status::Failed);
    }
    match write_at(&mut open, size, start, record) {
        Ok(()) => Ok(()),
        Err(e) => Err(fail_file_of(rt, path, e)),
    }
}

// Cuts off what stands behind the start, writes the record there, and syncs the file.
fn write_at(file: &mut fs::File, len: usize, start: usize, record: &[u8]) -> Result<(), Error>
    requires { start ≤ max_length }
{
    if start < len {
        file.set_len(start as u64)?;
    }
    write_synced(file, start as i64, record)
}
