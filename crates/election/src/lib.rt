// Kind 4, after election.rs of the Rust: an election leaves a certificate, the first entries of its leader's front or no log.
#![tactic(auto)]

pub mod certificate;
pub mod judging;
