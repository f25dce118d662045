// The lent bytes of a history: numbers in them, runs of them, and its regions (docs/LAYOUT.md).
#![tactic(auto)]

pub mod layout;
pub mod words;
