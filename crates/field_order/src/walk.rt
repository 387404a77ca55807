// Listing a field and listing its children call each other, and the count of fields left falls. No field is looked at twice.
ghost use Rattle.std.specs.Prelude.{◌∷◌, ◌+◌, ◌*◌, ◌≤◌, ◌<◌, length};
ghost use Rattle.rows.specs.Words.{most_fields};
ghost use Rattle.listing.specs.Entries.{entry_width};
ghost use Rattle.listing.specs.Order.{below};
ghost use Rattle.field_order.specs.Links.{up_in, Linked};
ghost use Rattle.field_order.specs.Entered.{Entered};

use crate::links::{FIRST, LINK_NUMBERS, NEXT};

// Lists field k, and then what hangs on it, from row `at` of the entries on; answers the row after them.
#[cycle(list_children_list_field)]
fn list_field(
    links: &[u16],
    n: usize,
    left: usize,
    level: usize,
    k: usize,
    entries: &mut [u64],
    at: usize,
) -> usize
    requires linked { Linked (up_in links.now) n 0 links.now }
    requires k_lt_n { (k < n) × (level + left < most_fields) × (entry_width * (at + 1 + length (below (up_in links.now) n left (level + 1) k)) ≤ length entries.old) }
    ensures { Entered entries.old at entries.new result (record { field = k; level = level } ∷ below (up_in links.now) n left (level + 1) k) }
{
    rows::put_words(
        entries,
        listing::ENTRY_WORDS * at,
        &[k as u64, level as u64],
    );
    list_children(links, n, left, level + 1, k, entries, at + 1)
}

// Lists what hangs on `above`, smaller numbers first, from row `at` of the entries on; answers the row after them. `left` is how many fields may
// still stand below one another: where none is left, all n stand above.
#[cycle(list_children_list_field)]
pub fn list_children(
    links: &[u16],
    n: usize,
    left: usize,
    level: usize,
    above: usize,
    entries: &mut [u64],
    at: usize,
) -> usize
    requires linked { Linked (up_in links.now) n 0 links.now }
    requires above_le_n { (above ≤ n) × (level + left ≤ most_fields) × (entry_width * (at + length (below (up_in links.now) n left level above)) ≤ length entries.old) }
    ensures { Entered entries.old at entries.new result (below (up_in links.now) n left level above) }
{
    if left == 0 {
        return at;
    }
    let mut row = at;
    let mut k = links[LINK_NUMBERS * above + FIRST] as usize;
    // No `for`: the next child is the one that the links name.
    while k < n {
        row = list_field(links, n, left - 1, level, k, entries, row);
        k = links[LINK_NUMBERS * k + NEXT] as usize;
    }
    row
}
