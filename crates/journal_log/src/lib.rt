// The build server's log, request 2026-01: one reader of its lines, whole or a byte at a time, and the times of a name gathered through it.
// What is known between two bytes is a value, so that a log of any size can be read in pieces. No public function has a `requires`.
#![tactic(auto)]

mod lines;
mod reading;
mod steps;
mod times;
mod whole;

pub use lines::Line;
pub use reading::line_at;
pub use times::{Cursor, Gathering, Misread, gather};
pub use whole::WholeLine;
