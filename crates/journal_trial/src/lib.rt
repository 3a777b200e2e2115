// Trying the limits of standing records on a recorded log (request 2026-12). The log is read by the reader of request 2026-01, in one pass a call.
// No public function has a `requires`. All positions together take some 300 kB of the stack.
#![tactic(auto)]

mod adding;
mod answer;
mod calls;
mod counting;
mod limits;
mod lowest;
mod positions;
mod strangers;
mod together;

pub use adding::{NUMBERS, add_piece};
pub use answer::{Trial, TrialError};
pub use calls::try_entry;
pub use counting::{Counts, count_links};
pub use lowest::exceeds;
pub use strangers::try_unknown;
