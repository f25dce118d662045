// The converter of views between their two editions, kind 1 and kind 9, for servers that know only one of them.
#![tactic(auto)]

pub mod convert;
pub mod put;
pub mod refusal;
pub mod runs;
pub mod turn;
