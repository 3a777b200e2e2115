// The inverse error functions.
// One file here for one file of the Rust.
pub mod inverf;
pub mod inverfc;
