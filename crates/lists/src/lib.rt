// The printed lists of a history, one element at a time: findings, leaders, unseen marks, unknown indexes, the committed prefix. Nothing is
// written.
#![tactic(auto)]

pub mod committed;
pub mod findings;
pub mod leaders;
pub mod pick;
pub mod unknown;
pub mod unseen;
