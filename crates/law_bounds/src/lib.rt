#![tactic(auto)]

// Bounds of the port's numbers (request 2026-06). This crate has no code: specs/ says them, proofs/ proves them.
