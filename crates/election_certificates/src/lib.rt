// The certificates that elections leave: where one stands among those of its term and the others, and its checked mark, the one field of
// it that changes.
#![tactic(auto)]

pub mod mark;
pub mod marks;
pub mod order;
