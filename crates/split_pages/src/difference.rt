// Delta: differences modulo 2 to the width.
ghost use Rattle.std.specs.Prelude.{◌≡◌, ℕ, ◌+◌, ◌-◌, ◌%◌, ◌^◌, ◌<◌, ◌≤◌};
ghost use Rattle.coding.specs.Layout.{DeltaWidth};

// a - b at 32 bits, by remainder.
fn difference_32(a: u64, b: u64) -> u64
    ensures { result ≡ (a % 2 ^ 32 + 2 ^ 32 - b % 2 ^ 32) % 2 ^ 32 }
{
    (a % 4294967296 + 4294967296 - b % 4294967296) % 4294967296
}

// a - b at 32 or 64 bits.
pub fn difference(width: u64, a: u64, b: u64) -> u64
    requires { DeltaWidth width }
    ensures { result ≡ (a % 2 ^ width + 2 ^ width - b % 2 ^ width) % 2 ^ width }
{
    if width == 64 {
        std::num::wrapping_sub_u64(a, b)
    } else {
        difference_32(a, b)
    }
}
