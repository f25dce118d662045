// The views of the partner's appendix: every gapless one of at most three entries with term 1 or 2 and content empty or the byte
// 00; and the record that shows each.
#![tactic(auto)]

pub mod record;
pub mod views;
