// The pages of an accepted page list, lent to the call on a column, are where the page list says. The crate has no code.
#![tactic(auto)]
