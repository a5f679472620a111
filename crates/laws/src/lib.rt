// Laws of coding trees of any kind: statements and proofs, and no function.
#![tactic(auto)]
