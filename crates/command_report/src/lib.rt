// The commands slots and record: for each name of a journal its last record with every limit in milliseconds; and one record with every field in
// words, or its times alone. Crate journal_report makes the lines.
#![tactic(auto)]

mod find;
mod input;
mod lines;
mod single;
mod table;

pub use single::record;
pub use table::slots;
