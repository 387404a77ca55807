// How elements stand in the bytes of a page: definitions, and laws on them. The crate has no code.
#![tactic(auto)]
