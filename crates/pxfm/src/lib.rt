// The port of `f_erfcinv` of the Rust crate pxfm 0.1.30 and of what it calls, built for x86-64 without fma:
// one file here for one file of the Rust, under the Rust's names; `checked` and `steps` serve the comparison with it. NOTICE carries the licence.
#![tactic(auto)]

mod checked;
mod common;
pub mod double_double;
pub mod err;
mod logs;
mod polyeval;
mod pow_exec;
pub mod steps;
