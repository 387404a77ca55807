// The fields of a header that is to be written: how long their records are, and their first refusal.
#![tactic(auto)]

mod long;
mod number;

pub use long::fields_long;
pub use number::field_list_number;
