// The rows of each table of a history, read and written: nodes, commit terms, certificates, findings, prefixes, leaders' logs. A function is lent only
// its own table's bytes, so it can touch no other.
#![tactic(auto)]

pub mod certificates;
pub mod findings;
pub mod leader_logs;
pub mod nodes;
pub mod prefixes;
pub mod terms;
