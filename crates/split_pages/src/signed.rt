// Signed elements: their two's complement at a width, and their zigzag form.
ghost use Rattle.std.specs.Prelude.{◌≡◌, ℕ, ◌+◌, ◌-◌, ◌*◌, ◌/◌, ◌%◌, ◌^◌, ◌<◌, ◌≤◌};
ghost use Rattle.coding.specs.Layout.{SplitWidth, zigzagged};
ghost use Rattle.coding.specs.Signed.{to_zigzag, from_bits};

use page_rules::number::most;

fn to_zigzag(v: i64) -> u64
    ensures { result ≡ to_zigzag v }
{
    if 0 <= v {
        2 * (v as u64)
    } else {
        2 * ((-1 - v) as u64) + 1
    }
}

// The remainder changes nothing: it shows the compiler that the number is below 0.
fn from_bits(width: u64, x: u64) -> i64
    requires { SplitWidth width × (x < 2 ^ width) }
    ensures { result ≡ from_bits width x }
{
    let top = most(width);
    if x <= top / 2 {
        x as i64
    } else {
        -1 - (((top - x) % 9223372036854775808) as i64)
    }
}

// The zigzag form of an element at a width, of its lowest bits.
pub fn zigzag(width: u64, x: u64) -> u64
    requires { SplitWidth width }
    ensures { result ≡ zigzagged width (x % 2 ^ width) }
{
    to_zigzag(from_bits(width, x & most(width)))
}
