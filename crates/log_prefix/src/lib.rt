// Prefixes of logs as they are stored, one row an entry: looked up, lengthened by the one step that every longer prefix goes through, and
// compared entry by entry, never by number alone (types/prefix.rs and logical_log/comparison.rs of the Rust).
#![tactic(auto)]

pub mod comparison;
pub mod lookup;
pub mod prefix;
pub mod table;
