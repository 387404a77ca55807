// The listing of an accepted header is text, well-formed UTF-8: theorems only (specs/ and proofs/).
#![tactic(auto)]
