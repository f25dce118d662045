// The lines of a printed sheet, and the decimal digits in them.
#![tactic(auto)]

pub mod decimal;
pub mod lines;
