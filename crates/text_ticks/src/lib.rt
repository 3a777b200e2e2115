// Whole ticks of a double by its bit pattern, rounded up or to the nearest, and their text in milliseconds.
// Every pattern is answered: a NaN, an infinity and a size from 2^53 on are declined. No public function has a `requires`.
#![tactic(auto)]

mod halves;
mod text;
mod whole;

pub use text::{MAX_TEXT, put_milliseconds, put_ticks};
pub use whole::{Count, END, ticks_near, ticks_up};
