// Kind 7, after the LG-01 half of logical_log/observation.rs of the Rust: a leader's view is held against the one kept for the same
// leader and term, and then kept. A leader only appends to its own log within a term.
#![tactic(auto)]

pub mod comparison;
pub mod observation;
