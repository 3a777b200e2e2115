#![tactic(auto)]

// The order of limits: what a planner takes for granted about them. This crate has no code: specs/ says it, proofs/ proves it.
