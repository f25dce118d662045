// Findings noted once (types/violation.rs).
#![tactic(auto)]

pub mod violation;
