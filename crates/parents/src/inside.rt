// Whether parents are fields.
ghost use Rattle.std.specs.Prelude.{◌≡◌};
ghost use Rattle.parents.specs.Parents.{inside};

// There are at most as many fields as a header may have and as there are parents, and the parent of each is one of them.
pub fn all_inside(parents: &[u16], n: usize) -> bool
    ensures { result ≡ inside parents.now n }
{
    if rows::MOST_FIELDS < n {
        return false;
    }
    if parents.len() < n {
        return false;
    }
    parents[..n].iter().all(|parent| (*parent as usize) < n)
}
