// Bit pages: eight elements to a byte, from the least significant bit.
ghost use Rattle.std.specs.Prelude.{◌≡◌, true, ℕ, ◌+◌, ◌/◌, ◌≤◌, length, drop};
ghost use Rattle.numbers.specs.Rows.{over};
ghost use Rattle.coding.specs.Layout.{bits_byte, packed, fit};
ghost use Rattle.page_rules.specs.Page.{most_elements};

// The byte of so many elements from a place on. Called with eight as a literal for whole bytes: the compiler writes the loop out.
fn bits_byte(words: &[u64], from: usize, count: usize) -> u8
    requires { (from + count ≤ length words.now) × (count ≤ 8) × (fit 1 words.now ≡ true) }
    ensures { result ≡ bits_byte count (drop from words.now) }
{
    let mut x: u64 = 0;
    for j in (0..count).rev() {
        x = x * 2 + words[from + j];
    }
    x as u8
}

// The bytes of the elements.
pub fn pack(words: &[u64], out: &mut [u8])
    requires { (length words.now ≤ most_elements) × (fit 1 words.now ≡ true) × ((length words.now + 7) / 8 ≤ length out.old) }
    ensures { out.new ≡ over (packed ((length words.now + 7) / 8) words.now) out.old }
{
    let whole = words.len() / 8;
    for m in 0..whole {
        out[m] = bits_byte(words, 8 * m, 8);
    }
    let rest = words.len() % 8;
    if 0 < rest {
        out[whole] = bits_byte(words, 8 * whole, rest);
    }
}
