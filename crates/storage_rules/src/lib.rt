// The storage rules: whether any bytes are a history. Refusal 12 is given for those that are not, before a record is looked at, so every
// other crate may build on them.
#![tactic(auto)]

pub mod certificates;
pub mod findings;
pub mod head;
pub mod leader_logs;
pub mod nodes;
pub mod once;
pub mod prefixes;
pub mod whole;
