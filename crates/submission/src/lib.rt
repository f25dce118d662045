// One record handed to a history in lent bytes: 12 where the bytes break the storage rules, else the record is read, and its kind
// answers.
#![tactic(auto)]

pub mod submit;
