#![tactic(auto)]

// The product's pair is exact (request 2026-05). This crate has no code: specs/ says it, proofs/ proves it.
