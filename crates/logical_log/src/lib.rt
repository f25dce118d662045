// Kind 1, after logical_log of the Rust (observation.rs): a view is judged with nothing written, then written. A view that is refused
// has touched nothing.
#![tactic(auto)]

pub mod judging;
pub mod observation;
pub mod writing;
