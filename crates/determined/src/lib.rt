// What a result says in numbers tells the result: a statement and its proof, and no function.
#![tactic(auto)]
