// The parts of a header, stored into lent bytes from a place on; each call answers the place after what it stored.
#![tactic(auto)]

mod list;
mod row;

pub use list::{write_alias_list, write_column_list, write_field_list};
pub use row::write_text;
