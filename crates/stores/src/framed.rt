// Rows that are stored one after the other, and the list around them. What differs is a trait's method and no closure: the trait says itself what
// a call leaves, and may be called at any place, so that neither function asks anything of its caller.
ghost use Rattle.std.specs.Prelude.{ℕ, List};
ghost use Rattle.stores.specs.Listed.{Listed};
ghost use Rattle.stores.specs.Rowed.{Rowed};

// What stores a row of a table from a place on. It answers the place after the row.
pub trait StoreRow {
    ghost leaves: { Self → (i at : ℕ) (before : List ℕ) (end : ℕ) (after : List ℕ) → Type 0 };

    fn store_row(&self, i: usize, at: usize, out: &mut [u8]) -> usize
        ensures { leaves self.now i at out.old result out.new };
}

// What stores the items of a list from a place on. It answers the place after them.
pub trait StoreItems {
    ghost leaves: { Self → (at : ℕ) (before : List ℕ) (end : ℕ) (after : List ℕ) → Type 0 };

    fn store_items(&self, at: usize, out: &mut [u8]) -> usize
        ensures { leaves self.now at out.old result out.new };
}

// The list of n items, which `items` stores from a place on; it answers the place after them. The head is stored last, when the size is known:
// none, if that place were before the list.
pub fn store_list<I: StoreItems>(n: usize, at: usize, out: &mut [u8], items: &I) -> usize
    ensures { Listed (λ place before end after. I.leaves items.now place before.now end after.now) n out.old at out.new result }
{
    let place = crate::store_8(0, at, out);
    let end = items.store_items(place, out);
    crate::store_list_head(end.saturating_sub(at), n, at, out);
    end
}

// The first n rows of a table, each of which `rows` stores at the place after the one before it; it answers the place after all of them.
pub fn store_rows<R: StoreRow>(n: usize, at: usize, out: &mut [u8], rows: &R) -> usize
    ensures { Rowed (λ i place before end after. R.leaves rows.now i place before.now end after.now) out.old at n out.new result }
{
    let mut next = at;
    for i in 0..n {
        next = rows.store_row(i, next, out);
    }
    next
}
