// The index of the records that stand (request 2026-08): made afresh, told from another, and kept beside the journal by append.
// Nothing is assumed of the slices, the lengths or the buffers. Making and telling it takes an array of places on the stack.
#![tactic(auto)]

use journal::Fault;
use refusals::Refusal;

mod append;
mod begun;
mod log;
mod longest;
mod make;
mod own;

pub use append::append_beside;
pub use begun::is_begun;
pub use log::append_log_beside;
pub use longest::{MAX_INDEX, index_room};
pub use make::{Scanned, make_index, scan_and_index};
pub use own::check_index;

// Why an index is not made, or is not the journal's: declined; or damaged, with the journal's first fault.
#[derive(Clone, Copy, Debug, PartialEq, Eq)]
pub enum IndexError {
    Declined(Refusal),
    Damaged(Fault),
}
