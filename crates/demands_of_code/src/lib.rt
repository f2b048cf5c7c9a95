// The third demand, of the connection and the memory that the code holds. Nothing here runs: specs/ states it, proofs/ proves it.
#![tactic(auto)]
