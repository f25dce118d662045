// Kind 3, after commit/prefix.rs of the Rust: the terms in which indexes were committed.
#![tactic(auto)]

pub mod terms;
