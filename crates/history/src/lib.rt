// What callers are given: a fresh history, a record handed to it, and the readers of its lists.
#![tactic(auto)]

pub mod exports;
