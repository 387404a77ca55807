// Headers whose fields are one chain: theorems only (specs/ and proofs/).
#![tactic(auto)]
