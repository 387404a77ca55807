// Numbers stored byte by byte, the least significant first.
ghost use Rattle.std.specs.Prelude.{◌≡◌, ℕ, ◌+◌, ◌<◌, ◌≤◌, length};
ghost use Rattle.coding.specs.Strides.{puts};

// The k lowest bytes of a number, from a place on. Called with k a literal: the compiler makes one store of them.
pub fn put_number(k: usize, x: u64, at: usize, out: &mut [u8])
    requires { at + k ≤ length out.old }
    ensures { out.new ≡ puts k x at out.old }
{
    let mut rest = x;
    for j in 0..k {
        out[at + j] = (rest % 256) as u8;
        rest = rest / 256;
    }
}
