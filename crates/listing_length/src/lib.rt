// How long a listing can be: theorems only (specs/ and proofs/).
#![tactic(auto)]
