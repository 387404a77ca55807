// Which refusals each writer can give, by envelope and number: theorems only (specs/ and proofs/).
#![tactic(auto)]
