// The history in lent bytes: which bytes stand for which history, its head, and the fresh history. The storage rules are defined here
// (specs/Rules.antt) and tested by `storage_rules`. docs/LAYOUT.md has the layout.
#![tactic(auto)]

pub mod fresh;
pub mod head;
pub mod rows;
pub mod stored;
