// Which refusals each reader can give: theorems only (specs/ and proofs/).
#![tactic(auto)]
