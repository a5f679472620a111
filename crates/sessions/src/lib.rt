// Demand 3, and R-14's order of pipeline units, for sessions of every kind: statements and proofs, and no function.
#![tactic(auto)]
