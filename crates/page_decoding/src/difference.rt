// Delta: sums and differences modulo 2 to the width.
ghost use Rattle.std.specs.Prelude.{◌≡◌, ℕ, ◌+◌, ◌-◌, ◌%◌, ◌^◌, ◌<◌, ◌≤◌, length, take};
ghost use Rattle.numbers.specs.Rows.{over};
ghost use Rattle.coding.specs.Layout.{DeltaWidth, sums};

// a + b at 32 bits, by remainder.
fn sum_32(a: u64, b: u64) -> u64
    ensures { result ≡ (a + b) % 2 ^ 32 }
{
    (a % 4294967296 + b % 4294967296) % 4294967296
}

// a + b at 32 or 64 bits.
fn sum(width: u64, a: u64, b: u64) -> u64
    requires { DeltaWidth width }
    ensures { result ≡ (a + b) % 2 ^ width }
{
    if width == 64 {
        std::num::wrapping_add_u64(a, b)
    } else {
        sum_32(a, b)
    }
}

// The first n words become their running sums.
pub fn sum_up(width: u64, n: usize, out: &mut [u64])
    requires { DeltaWidth width × (n ≤ length out.old) }
    ensures { out.new ≡ over (sums width 0 (take n out.old)) out.old }
{
    let mut before: u64 = 0;
    for i in 0..n {
        before = sum(width, before, out[i]);
        out[i] = before;
    }
}
