// The logarithms that the quantile uses.
// One file here for one file of the Rust.
pub(crate) mod fast_log_dd;
