// Kind 2, after commit/prefix.rs of the Rust. One committed prefix is kept across nodes; every one seen later must agree with it.
#![tactic(auto)]

pub mod committed;
pub mod prefix;
