// Parent chains: whether every one ends, and which fields are dark. Arrays of parents and of marks have a place for each field; a
// place in them comes from a field's number and never from a column's.
#![tactic(auto)]

mod dark;
pub mod inside;
mod walk;

ghost use Rattle.std.specs.Prelude.{◌≡◌, ℕ, get_or};
ghost use Rattle.rows.specs.Tables.{columns_in};
ghost use Rattle.parents.specs.Parents.{chains_of};
ghost use Rattle.parents.specs.Dark.{dark_mark};

use rows::FieldNumber;

// Of the first n fields, whose parents are these, the lowest whose chain never ends, if there is one. No chain is followed
// where a parent is none of the n fields.
pub fn endless_chain(parents: [u16; rows::MOST_FIELDS], n: usize) -> Option<FieldNumber>
    ensures { result ≡ chains_of parents n }
{
    if inside::all_inside(&parents, n) {
        return walk::lowest_endless(parents, n);
    }
    None
}

// The dark marks of n fields, whose parents are these: 1 where one of the first `count` columns of a table is of unknown type and
// hangs on the field or on one below it, else 0. All 0 where a parent is none of the n fields.
pub fn dark_marks(
    parents: &[u16],
    n: usize,
    columns: &[u64],
    count: usize,
) -> [u8; rows::MOST_FIELDS]
    ensures { (f : ℕ) → get_or result f 0 ≡ dark_mark parents.now n (columns_in columns.now count) f }
{
    if inside::all_inside(parents, n) {
        return dark::marks_of(parents, n, columns, count);
    }
    [0u8; rows::MOST_FIELDS]
}
