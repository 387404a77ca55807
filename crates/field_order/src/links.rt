// Which fields hang on which: a row of three numbers for each field, and one for the number of fields, on which top-level fields hang.
ghost use Rattle.std.specs.Prelude.{◌≡◌, ◌≤◌, ◌<◌, length, take};
ghost use Rattle.rows.specs.Words.{most_fields};
ghost use Rattle.parents.specs.Parents.{Inside};
ghost use Rattle.listing.specs.Order.{holder};
ghost use Rattle.field_order.specs.Links.{Linked};

// What the field hangs on, the next field that hangs on the same, and the first that hangs on it.
pub const LINK_NUMBERS: usize = 3;

// Where in a row the last two stand.
pub const NEXT: usize = 1;

pub const FIRST: usize = 2;

const ALL_LINKS: usize = LINK_NUMBERS * (rows::MOST_FIELDS + 1);

// What field k of n fields hangs on: its parent, or n where it is top-level.
fn holder_of(parents: &[u16], n: usize, k: usize) -> usize
    requires { (n ≤ length parents.now) × (k < n) × Inside parents.now n }
    ensures { (result ≡ holder (take n parents.now) k) × (result ≤ n) }
{
    let parent = parents[k] as usize;
    if parent == k {
        return n;
    }
    parent
}

// The links of n fields; n stands for no field. From the last field down: the lowest that hangs on a field so far is the next sibling of the one
// that is linked now, which then takes its place.
pub fn link_fields(parents: &[u16], n: usize) -> [u16; ALL_LINKS]
    requires n_le_most_fields { (n ≤ most_fields) × (n ≤ length parents.now) }
    requires inside { Inside parents.now n }
    ensures { Linked (holder (take n parents.now)) n 0 result }
{
    let mut links = [n as u16; ALL_LINKS];
    for k in (0..n).rev() {
        let above = holder_of(parents, n, k);
        links[LINK_NUMBERS * k] = above as u16;
        links[LINK_NUMBERS * k + NEXT] = links[LINK_NUMBERS * above + FIRST];
        links[LINK_NUMBERS * above + FIRST] = k as u16;
    }
    links
}
