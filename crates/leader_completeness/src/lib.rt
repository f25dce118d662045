// Kind 5, the completeness check, `record_leader_completeness` of commit/prefix.rs: every certificate is held against the committed
// prefix, through the last committed index of an earlier term. Judged with nothing written, then written.
#![tactic(auto)]

pub mod judgement;
pub mod leader_completeness;
pub mod marks;
pub mod relevance;
