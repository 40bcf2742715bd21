// A tree with a finish bound of N ticks has finished at or before the N-th tick carried out: the theorems stand in specs/ and proofs/.
#![tactic(auto)]
