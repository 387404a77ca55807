// A plane's bytes into words, one and eight at a time. The unit is 256 to the power of the plane's number, and `keep` has all bits of a word but those of
// that byte.
ghost use Rattle.std.specs.Prelude.{◌≡◌, ℕ, ◌+◌, ◌*◌, ◌^◌, ◌<◌, ◌≤◌, length};
ghost use Rattle.planes.specs.Join.{join_at, join_two, join_four, join_eight, Octets};

pub fn wide(b: u8) -> u64
    ensures { (result ≡ b) × (result < 256) }
{
    b as u64
}

// A byte into the word at a place.
pub fn join_at(unit: u64, keep: u64, b: u64, at: usize, out: &mut [u64])
    requires { (256 * unit ≤ 2 ^ 64) × (b < 256) × (at < length out.old) }
    ensures { out.new ≡ join_at unit keep b at out.old }
{
    out[at] = (out[at] & keep) | (b * unit);
}

// Two, four and eight bytes into the words from a place on.
#[tactic(auto, unfolding(crate::specs::Join::join_two))]
fn join_two(unit: u64, keep: u64, a: u64, b: u64, at: usize, out: &mut [u64])
    requires { (256 * unit ≤ 2 ^ 64) × (a < 256) × (b < 256) × (at + 2 ≤ length out.old) }
    ensures { out.new ≡ join_two unit keep a b at out.old }
{
    join_at(unit, keep, a, at, out);
    join_at(unit, keep, b, at + 1, out);
}

#[tactic(auto, unfolding(crate::specs::Join::join_four))]
fn join_four(unit: u64, keep: u64, a: u64, b: u64, c: u64, d: u64, at: usize, out: &mut [u64])
    requires { (256 * unit ≤ 2 ^ 64) × Octets a b c d × (at + 4 ≤ length out.old) }
    ensures { out.new ≡ join_four unit keep a b c d at out.old }
{
    join_two(unit, keep, a, b, at, out);
    join_two(unit, keep, c, d, at + 2, out);
}

#[tactic(auto, unfolding(crate::specs::Join::join_eight))]
pub fn join_eight(
    unit: u64,
    keep: u64,
    a: u64,
    b: u64,
    c: u64,
    d: u64,
    e: u64,
    f: u64,
    g: u64,
    h: u64,
    at: usize,
    out: &mut [u64],
)
    requires { (256 * unit ≤ 2 ^ 64) × Octets a b c d × Octets e f g h × (at + 8 ≤ length out.old) }
    ensures { out.new ≡ join_eight unit keep a b c d e f g h at out.old }
{
    join_four(unit, keep, a, b, c, d, at, out);
    join_four(unit, keep, e, f, g, h, at + 4, out);
}
