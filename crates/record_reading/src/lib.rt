// Reading a whole record: what a server's record says, or the first fault from the left. Document 01, "Record bits" and "Refused
// records", decides. `head::read` asks nothing of the bytes.
#![tactic(auto)]

pub mod head;
