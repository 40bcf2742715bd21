// What holds of every walk of the rules, of every call, and from one call to the next: the theorems stand in specs/ and proofs/.
#![tactic(auto)]
