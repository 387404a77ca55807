// What every call answers, in document 01's terms: definitions, and laws on them. The crate has no code.
#![tactic(auto)]
