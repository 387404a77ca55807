// The register of the CRC-32, taken on by a byte and by a word of eight bytes.
#![tactic(auto)]

ghost use Rattle.std.specs.Prelude.{◌≡◌};
ghost use Rattle.crc_register.specs.Register.{shifted, bits, byte};

// The register after one bit, and after the eight bits of a byte.
#[tactic(auto, unfolding(crate::specs::Register::shifted))]
fn shifted(c: u32) -> u32
    ensures { result ≡ shifted c }
{
    if c % 2 == 1 {
        return (c / 2) ^ 0xEDB88320;
    }
    c / 2
}

pub fn byte(c: u32, b: u8) -> u32
    ensures { result ≡ byte c b }
{
    let mut x = c ^ (b as u32);
    for _ in 0..8u32 {
        x = shifted(x);
    }
    x
}

// The register after the 64 bits of a word that is all it has: the word is divided by the polynomial, and of the quotient times the
// polynomial what lies above the word is left.
pub fn reduce(x: u64) -> u64
    ensures { result ≡ bits 64 x }
{
    let y = x ^ (x << 16);
    let z = y ^ (y << 34);
    let q = z
        ^ (z << 6)
        ^ (z << 9)
        ^ (z << 10)
        ^ (z << 12)
        ^ (z << 22)
        ^ (z << 24)
        ^ (z << 29)
        ^ (z << 30)
        ^ (z << 31)
        ^ (z << 32)
        ^ (z << 37)
        ^ (z << 38)
        ^ (z << 43)
        ^ (z << 55)
        ^ (z << 61)
        ^ (z << 62);
    let f = q >> 32;
    let g = f ^ (f >> 6);
    g ^ (g >> 1)
        ^ (g >> 2)
        ^ (g >> 4)
        ^ (g >> 5)
        ^ (g >> 6)
        ^ (g >> 16)
        ^ (g >> 23)
        ^ (g >> 26)
        ^ (g >> 29)
}
