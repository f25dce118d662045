// What a record is answered and what it leaves, and document 01's numbers for it.
#![tactic(auto)]

pub mod answer;
pub mod numbers;
