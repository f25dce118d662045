// Writing a whole record: a list of numbers, one a field, becomes a record's bytes in a lent buffer, or is refused.
#![tactic(auto)]

pub mod numbers;
pub mod put;
pub mod reply;
pub mod scan;
pub mod write;
