// The three demands about what `history` exports, over whole lists of records. No code: statements in specs/, proofs in proofs/.
#![tactic(auto)]
