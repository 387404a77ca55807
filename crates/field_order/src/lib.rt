// The order in which the fields of a header are listed: each with its level, in a table of entries.
#![tactic(auto)]

mod links;
mod walk;

ghost use Rattle.std.specs.Prelude.{◌≡◌, true, take};
ghost use Rattle.parents.specs.Parents.{inside, endless};
ghost use Rattle.listing.specs.Order.{order, order_where, order_of};
ghost use Rattle.field_order.specs.Entered.{Entered};

// The words of a table that has room for an entry of each field.
pub const ORDER_WORDS: usize = listing::ENTRY_WORDS * rows::MOST_FIELDS;

// Writes the first n fields, whose parents are these, in the order in which they are listed, and answers how many there are. None where a
// chain never ends, or a parent is none of the n fields.
pub fn order_fields(
    parents: &[u16; rows::MOST_FIELDS],
    n: usize,
    entries: &mut [u64; ORDER_WORDS],
) -> usize
    ensures { Entered entries.old 0 entries.new result (order_of parents.now n) }
{
    if parents::inside::all_inside(parents, n) {
        return order_inside(parents, n, entries);
    }
    0
}

// The same where every parent is one of the n fields.
fn order_inside(
    parents: &[u16; rows::MOST_FIELDS],
    n: usize,
    entries: &mut [u64; ORDER_WORDS],
) -> usize
    requires { inside parents.now n ≡ true }
    ensures { Entered entries.old 0 entries.new result (order_where (order (take n parents.now)) (endless (take n parents.now) n n)) }
{
    let all = *parents;
    match parents::endless_chain(all, n) {
        None => {
            let links = links::link_fields(parents, n);
            walk::list_children(&links, n, n, 0, n, entries, 0)
        }
        Some(_) => 0,
    }
}
