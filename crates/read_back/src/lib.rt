// What is written is read back: theorems over the calls of the writers and of the readers (specs/ and proofs/).
#![tactic(auto)]
