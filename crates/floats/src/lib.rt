// Whole numbers as floats of a format: their sums, differences and order are exact. The facts stand in specs/ and proofs/.
#![tactic(auto)]
