// Demand 3 applied to examples, and the rules of reading computed on them: theorems only (specs/ and proofs/).
#![tactic(auto)]
