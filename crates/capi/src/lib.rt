// What C and Rust programs call. Doubles go as bit patterns, and a NaN leaves as 7ff8000000000000;
// a slice is a pointer and a length, and an answer of several words goes into an array that the caller lends.
#![tactic(auto)]

pub mod append;
pub mod bands;
pub mod index;
pub mod journals;
pub mod limits;
pub mod line;
pub mod merge;
pub mod quantile;
pub mod trial;
