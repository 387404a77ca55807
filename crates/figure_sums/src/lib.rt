// A report that is begun at zeros has the exact sums over its lists, the same in any order of them. The crate has no code.
#![tactic(auto)]
