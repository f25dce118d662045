// The lists in a record, a view's entries and a check's rows: scanned once for their faults, then walked as often as they are wanted.
// The walk asks for a scanned list and has no fault of its own.
#![tactic(auto)]

pub mod scan;
pub mod view;
pub mod walk;
