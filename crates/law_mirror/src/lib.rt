#![tactic(auto)]

// The mirror of the quantile (request 2026-13). This crate has no code: specs/ says it, proofs/ proves it.
