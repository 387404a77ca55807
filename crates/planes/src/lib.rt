// Planes of a split page, placed into lent words.
#![tactic(auto)]

mod join;
mod pass;

ghost use Rattle.std.specs.Prelude.{◌≡◌};
ghost use Rattle.planes.specs.Plane.{placed, cleared};

// Goes through plane p from its first byte to its last: each word that the plane has a byte for gets it as byte p, and its other bytes stay.
pub fn place_plane(p: usize, plane: &[u8], out: &mut [u64])
    ensures { out.new ≡ placed 8 p plane.now out.old }
{
    if 8 <= p {
        return;
    }
    let n = out.len();
    if plane.len() <= n {
        pass::place_all(p, plane, out);
        return;
    }
    pass::place_all(p, &plane[..n], out);
}

// Words that get k bytes each, cleared before: where these are all their bytes, nothing is to be cleared.
pub fn clear_above(k: usize, out: &mut [u64])
    ensures { out.new ≡ cleared k out.old }
{
    if 8 <= k {
        return;
    }
    // By index: the library's `fill` writes the last word apart, and takes longer for a few words.
    for i in 0..out.len() {
        out[i] = 0;
    }
}
