// Which refusals a call on a report can give, what each counts and which words stay: theorems only (specs/ and proofs/).
#![tactic(auto)]
