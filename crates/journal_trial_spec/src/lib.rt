#![tactic(auto)]

// The trial's definitions and laws. This crate has no code: specs/ defines what trying the limits on a recorded log answers, proofs/ has its laws.
