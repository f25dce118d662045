// The text of a sheet: its input split into pieces, the records taken in turn with a line for each, and the lists behind them.
#![tactic(auto)]

pub mod closing;
pub mod split;
pub mod taking;
