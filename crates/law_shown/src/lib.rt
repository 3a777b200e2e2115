#![tactic(auto)]

// A report leaves no limit out, and each limit and slot lies on its side of the mean. This crate has no code: specs/ says it, proofs/ proves it.
