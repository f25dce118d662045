// Definitions and theorems only: document 01 written out in specs/, and what is proved of it in proofs/.
#![tactic(auto)]
