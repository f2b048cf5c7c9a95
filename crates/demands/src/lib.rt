// The three demands as theorems over the rules. Nothing here runs: specs/ states them, proofs/ proves them.
#![tactic(auto)]
