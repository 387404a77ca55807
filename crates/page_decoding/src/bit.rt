// Bit pages: eight elements to a byte, from the least significant bit.
ghost use Rattle.std.specs.Prelude.{◌≡◌, ◌*◌, ◌<◌, ◌≤◌, length};
ghost use Rattle.numbers.specs.Rows.{over};
ghost use Rattle.coding.specs.Layout.{unpacked};

// The first words become the first bits of byte m, so many as are counted. Called with eight as a literal for whole bytes: the compiler writes the loop out.
fn bits_out(page: &[u8], m: usize, count: usize, out: &mut [u64])
    requires { (m < length page.now) × (count ≤ 8) × (count ≤ length out.old) }
    ensures { out.new ≡ over (unpacked count (8 * m) page.now) out.old }
{
    let byte = page[m] as u64;
    for j in 0..count {
        out[j] = (byte >> j) % 2;
    }
}

// The first n words become the first n bits of the page.
pub fn unpack(page: &[u8], n: usize, out: &mut [u64])
    requires { (n ≤ 8 * length page.now) × (n ≤ length out.old) }
    ensures { out.new ≡ over (unpacked n 0 page.now) out.old }
{
    let whole = n / 8;
    for m in 0..whole {
        let from = 8 * m;
        bits_out(page, m, 8, &mut out[from..]);
    }
    let rest = n % 8;
    if 0 < rest {
        let from = 8 * whole;
        bits_out(page, whole, rest, &mut out[from..]);
    }
}
