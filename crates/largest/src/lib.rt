// The units with the most flags: a statement and its proof by computation, and no function.
#![tactic(auto)]
