// What C and Rust programs call: each export calls crate capi's function of that name, and states its clauses again.
// A slice is a pointer and a length, and an answer of several words goes into an array that the caller lends.
#![tactic(auto)]

pub mod append;
pub mod bands;
pub mod index;
pub mod journals;
pub mod limits;
pub mod line;
pub mod merge;
pub mod quantile;
pub mod trial;
