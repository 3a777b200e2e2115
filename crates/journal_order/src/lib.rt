// The places of a journal's records, sorted by some of their bytes: by name, or by all of them. A journal has fewer than 2,000 records and at most
// 65,536 bytes, so that an array of places fits on the stack; a caller lends it. Entering and searching halve: no comparison of each with each.
#![tactic(auto)]

mod halving;
mod keys;
mod latest;
mod putting;

pub use keys::{Key, Keyed, MOST};
