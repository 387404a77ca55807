// The pass through one plane: most of it eight bytes at a time, the last few one by one.
ghost use Rattle.std.specs.Prelude.{◌≡◌, ℕ, ◌+◌, ◌*◌, ◌^◌, ◌<◌, ◌≤◌, length, take};
ghost use Rattle.planes.specs.Plane.{joined_by, placed};
ghost use Rattle.planes.specs.Join.{joins};

use crate::join::{join_at, join_eight, wide};

// All bytes of the plane but the last few, eight at a time: eight are read before a word is stored, so the compiler joins two words at once. Called with
// the unit a literal. How many bytes are placed.
fn place_eights(unit: u64, keep: u64, plane: &[u8], out: &mut [u64]) -> usize
    requires { (256 * unit ≤ 2 ^ 64) × (length plane.now ≤ length out.old) }
    ensures { (result ≤ length plane.now) × (out.new ≡ joined_by (joins unit keep) (take result plane.now) out.old) }
{
    let eights = plane.len() / 8;
    for n in 0..eights {
        let i = 8 * n;
        let a = wide(plane[i]);
        let b = wide(plane[i + 1]);
        let c = wide(plane[i + 2]);
        let d = wide(plane[i + 3]);
        let e = wide(plane[i + 4]);
        let f = wide(plane[i + 5]);
        let g = wide(plane[i + 6]);
        let h = wide(plane[i + 7]);
        join_eight(unit, keep, a, b, c, d, e, f, g, h, i, out);
    }
    8 * eights
}

// One byte at a time.
fn place_each(unit: u64, keep: u64, plane: &[u8], out: &mut [u64])
    requires { (256 * unit ≤ 2 ^ 64) × (length plane.now ≤ length out.old) }
    ensures { out.new ≡ joined_by (joins unit keep) plane.now out.old }
{
    for i in 0..plane.len() {
        join_at(unit, keep, wide(plane[i]), i, out);
    }
}

// Most of plane p, with a loop for each p.
fn place_most(p: usize, keep: u64, plane: &[u8], out: &mut [u64]) -> usize
    requires { (p < 8) × (length plane.now ≤ length out.old) }
    ensures { (result ≤ length plane.now) × (out.new ≡ joined_by (joins (256 ^ p) keep) (take result plane.now) out.old) }
{
    match p {
        0 => place_eights(1, keep, plane, out),
        1 => place_eights(256, keep, plane, out),
        2 => place_eights(65536, keep, plane, out),
        3 => place_eights(16777216, keep, plane, out),
        4 => place_eights(4294967296, keep, plane, out),
        5 => place_eights(1099511627776, keep, plane, out),
        6 => place_eights(281474976710656, keep, plane, out),
        _ => place_eights(72057594037927936, keep, plane, out),
    }
}

// A plane that has no more bytes than there are words: most of it, and then the rest.
pub fn place_all(p: usize, plane: &[u8], out: &mut [u64])
    requires { (p < 8) × (length plane.now ≤ length out.old) }
    ensures { out.new ≡ placed 8 p plane.now out.old }
{
    let unit = 1 << (8 * p);
    let keep = 18446744073709551615 - 255 * unit;
    let done = place_most(p, keep, plane, out);
    place_each(unit, keep, &plane[done..], &mut out[done..]);
}
