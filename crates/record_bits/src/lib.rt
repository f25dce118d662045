// The bits of a record: a field of any width at any place, with its own faults, and the reader that goes past one field after the other.
// Fields are packed most significant bit first, so a field seldom begins with a byte.
#![tactic(auto)]

pub mod bits;
pub mod fields;
pub mod reader;
