#![tactic(auto)]

// General lemmas that no paper names: truth values and orders. This crate has no code.
