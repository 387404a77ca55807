// Signed elements: their two's complement at a width, and their zigzag form.
ghost use Rattle.std.specs.Prelude.{◌≡◌, ℕ, ◌+◌, ◌-◌, ◌*◌, ◌/◌, ◌%◌, ◌^◌, ◌<◌, ◌≤◌, map, length, take, ℤ, slice_index};
ghost use Rattle.numbers.specs.Rows.{over};
ghost use Rattle.coding.specs.Layout.{SplitWidth, zigzagged, unzigzagged};
ghost use Rattle.coding.specs.Signed.{to_zigzag, from_zigzag, to_bits, from_bits, Reaches};

use page_rules::number::most;

fn from_zigzag(z: u64) -> i64
    ensures { result ≡ from_zigzag z }
{
    let half = (z / 2) as i64;
    if z % 2 == 0 { half } else { -1 - half }
}

// The two's complement at a width of a signed element that reaches no further.
fn to_bits(width: u64, v: i64) -> u64
    requires { SplitWidth width × Reaches width v }
    ensures { result ≡ to_bits width v }
{
    if 0 <= v {
        v as u64
    } else {
        most(width) - ((-1 - v) as u64)
    }
}

// The element at a width that has a zigzag form.
fn unzigzag(width: u64, z: u64) -> u64
    requires { SplitWidth width × (z < 2 ^ width) }
    ensures { result ≡ unzigzagged width z }
{
    to_bits(width, from_zigzag(z))
}

// The first n words, zigzag forms at the width, become their elements.
pub fn unzigzag_all(width: u64, n: usize, out: &mut [u64])
    requires { SplitWidth width × (n ≤ length out.old) × ((i : ℕ) → i < n → slice_index out.old i < 2 ^ width) }
    ensures { out.new ≡ over (map (unzigzagged width) (take n out.old)) out.old }
{
    for i in 0..n {
        out[i] = unzigzag(width, out[i]);
    }
}
