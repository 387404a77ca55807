// The register of the CRC-32 after the first bytes, one at a time.
ghost use Rattle.std.specs.Prelude.{◌≡◌, ◌≤◌, length, drop};
ghost use Rattle.checksum.specs.Crc.{fold};

pub fn first(bytes: &[u8], count: usize) -> u32
    requires { count ≤ length bytes.now }
    ensures { fold result (drop count bytes.now) ≡ fold 0xFFFFFFFF bytes.now }
{
    let mut c: u32 = 0xFFFFFFFF;
    for b in &bytes[..count] {
        c = crc_register::byte(c, *b);
    }
    c
}
