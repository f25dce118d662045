// Invariants that the rows of a record show by themselves. The history is not looked at. Document 01, "Rows", decides.
#![tactic(auto)]

pub mod commit_safety; // after commit.rs: commit indexes and committed configurations against their floors
