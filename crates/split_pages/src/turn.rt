// Eight numbers turned, so that the bytes of a plane stand side by side: how split pages are written eight elements at a time.
ghost use Rattle.std.specs.Prelude.{◌≡◌, ℕ, ◌+◌, ◌*◌, ◌/◌, ◌^◌, ◌<◌, ◌≤◌, length};
ghost use Rattle.coding.specs.Layout.{SplitWidth};
ghost use Rattle.split_pages.specs.Turn.{evens, fours, row, eight_of, two_rows, four_rows, Turned};

use crate::number::put_8;

// The lanes of a that the mask has, and those of b, moved up between them.
fn interleave(mask: u64, up: u64, a: u64, b: u64) -> u64
    requires { mask * up < 2 ^ 64 }
    ensures { result ≡ evens mask up a b }
{
    (a & mask) | ((b & mask) * up)
}

fn interleave_four(a: u64, b: u64, c: u64, d: u64, h: u64, m: u64) -> u64
    requires { (0 < h) × (0 < m) }
    ensures { result ≡ fours a b c d h m }
{
    let low = interleave(0x00000000FFFFFFFF, 4294967296, a / h, c / h);
    let high = interleave(0x00000000FFFFFFFF, 4294967296, b / h, d / h);
    interleave(0x0000FFFF0000FFFF, 65536, low / m, high / m)
}

// A byte of each of eight numbers: the byte that h, m and l say, each 1 or 256 to the power 4, 2 and 1.
fn turned_row(
    a: u64,
    b: u64,
    c: u64,
    d: u64,
    e: u64,
    f: u64,
    g: u64,
    i: u64,
    h: u64,
    m: u64,
    l: u64,
) -> u64
    requires { (0 < h) × (0 < m) × (0 < l) }
    ensures { result ≡ row a b c d e f g i h m l }
{
    let even = interleave_four(a, c, e, g, h, m);
    let odd = interleave_four(b, d, f, i, h, m);
    interleave(0x00FF00FF00FF00FF, 256, even / l, odd / l)
}

// Two planes' eight bytes, of the rows h m 1 and h m 256.
fn put_two_rows(
    a: u64,
    b: u64,
    c: u64,
    d: u64,
    e: u64,
    f: u64,
    g: u64,
    i: u64,
    h: u64,
    m: u64,
    at: usize,
    n: usize,
    out: &mut [u8],
)
    requires { (0 < h) × (0 < m) × (at + n + 8 ≤ length out.old) }
    ensures { out.new ≡ two_rows a b c d e f g i h m at n out.old }
{
    put_8(turned_row(a, b, c, d, e, f, g, i, h, m, 1), at, out);
    put_8(turned_row(a, b, c, d, e, f, g, i, h, m, 256), at + n, out);
}

fn put_four_rows(
    a: u64,
    b: u64,
    c: u64,
    d: u64,
    e: u64,
    f: u64,
    g: u64,
    i: u64,
    h: u64,
    at: usize,
    n: usize,
    out: &mut [u8],
)
    requires { (0 < h) × (at + 3 * n + 8 ≤ length out.old) }
    ensures { out.new ≡ four_rows a b c d e f g i h at n out.old }
{
    put_two_rows(a, b, c, d, e, f, g, i, h, 1, at, n, out);
    put_two_rows(a, b, c, d, e, f, g, i, h, 65536, at + 2 * n, n, out);
}

// The planes' bytes of eight numbers, those of the elements from `at` on.
pub fn put_rows(
    width: u64,
    a: u64,
    b: u64,
    c: u64,
    d: u64,
    e: u64,
    f: u64,
    g: u64,
    i: u64,
    at: usize,
    n: usize,
    out: &mut [u8],
)
    requires { SplitWidth width × (at + 8 ≤ n) × (n * (width / 8) ≤ length out.old) }
    ensures { Turned (width / 8) n at (eight_of a b c d e f g i) out.old out.new }
{
    if width == 16 {
        put_two_rows(a, b, c, d, e, f, g, i, 1, 1, at, n, out);
    } else if width == 32 {
        put_four_rows(a, b, c, d, e, f, g, i, 1, at, n, out);
    } else {
        put_four_rows(a, b, c, d, e, f, g, i, 1, at, n, out);
        put_four_rows(a, b, c, d, e, f, g, i, 4294967296, at + 4 * n, n, out);
    }
}
