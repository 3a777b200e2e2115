// What the programs that replay stored lines share: where a line ends, the numbers in it, the tally of lines,
// the end of the input, and what they print. No public function has a `requires`.
#![tactic(auto)]

mod count;
mod field;
mod input;
mod place;
mod report;
mod tally;

pub use count::one_more;
pub use field::number_at;
pub use input::{input_ended, read_full};
pub use place::line_end;
pub use report::Output;
pub use tally::Tally;
