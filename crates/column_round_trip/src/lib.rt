// What encoding calls wrote page by page, one call on a column reads back, and the other way round. The crate has no code.
#![tactic(auto)]
