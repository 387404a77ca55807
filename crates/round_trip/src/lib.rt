// What one page call leaves, the other reads back. The crate has no code.
#![tactic(auto)]
