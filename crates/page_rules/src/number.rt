// Numbers by their bits.
ghost use Rattle.std.specs.Prelude.{◌≡◌};
ghost use Rattle.coding.specs.Layout.{largest};

// The largest number of so many bits, of 64 where there are more.
pub fn most(width: u64) -> u64
    ensures { result ≡ largest width }
{
    if width < 64 {
        (1 << width) - 1
    } else {
        18446744073709551615
    }
}
