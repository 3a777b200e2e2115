#![tactic(auto)]

// Every limit is finite (request 2026-06). This crate has no code: specs/ says it, proofs/ proves it.
