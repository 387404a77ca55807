// Numbers of one, two, four and eight bytes, the least significant first, stored. Each by its halves, so that the compiler makes one store of it.
// With a loop over the eight bytes, pages of split elements of 16 and 32 bits take two to three times as long. One function by halves would call itself
// with a const parameter that is computed, which Rattle has not.
ghost use Rattle.std.specs.Prelude.{◌≡◌, ℕ, ◌+◌, ◌-◌, ◌*◌, ◌/◌, ◌%◌, ◌^◌, ◌<◌, ◌≤◌, length};
ghost use Rattle.coding.specs.Strides.{puts};

// A number's bytes stored from a place on: one of them, two, four, eight.
fn put_1(x: u64, at: usize, out: &mut [u8])
    requires { at < length out.old }
    ensures { out.new ≡ puts 1 x at out.old }
{
    out[at] = (x % 256) as u8;
}

fn put_2(x: u64, at: usize, out: &mut [u8])
    requires { at + 2 ≤ length out.old }
    ensures { out.new ≡ puts 2 x at out.old }
{
    put_1(x, at, out);
    put_1(x / 256, at + 1, out);
}

fn put_4(x: u64, at: usize, out: &mut [u8])
    requires { at + 4 ≤ length out.old }
    ensures { out.new ≡ puts 4 x at out.old }
{
    put_2(x, at, out);
    put_2(x / 65536, at + 2, out);
}

pub fn put_8(x: u64, at: usize, out: &mut [u8])
    requires { at + 8 ≤ length out.old }
    ensures { out.new ≡ puts 8 x at out.old }
{
    put_4(x, at, out);
    put_4(x / 4294967296, at + 4, out);
}

// Byte j of a number, from the least significant.
pub fn byte_of(x: u64, j: usize) -> u8
    requires { j < 8 }
    ensures { result ≡ x / 256 ^ j % 256 }
{
    ((x >> (8 * j)) % 256) as u8
}
