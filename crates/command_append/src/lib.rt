// `awaqlla append [--profile] [--index INDEX] [--log] FILE DATE|DAY NAME CHANCE..`: appends a record to a journal file, document 01's volume, of the
// ticks on standard input or of request 2026-01's log; with --profile by request 2026-14's rule, with --index it keeps request 2026-08's index.
// `take` judges the words and reads the input, before any lock; `append` reads and writes the files. The last line of the output is the verdict.
#![tactic(auto)]

mod beside;
mod extend;
mod input;
mod logs;
mod output;
mod verdict;
mod volume;
mod words;

pub use input::take;
pub use verdict::{status_of, verdict_line};
pub use volume::append;
