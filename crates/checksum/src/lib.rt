// The CRC-32 of an envelope and of a page.
#![tactic(auto)]

mod first;
mod wide;

ghost use Rattle.std.specs.Prelude.{◌≡◌};
ghost use Rattle.checksum.specs.Crc.{crc32};

use wide::Wide;

// The CRC-32 of some bytes: the bytes before the last whole words one at a time, then the words.
pub fn crc32(bytes: &[u8]) -> u32
    ensures { result ≡ crc32 bytes.now }
{
    let words = bytes.len() / 8;
    let c = first::first(bytes, bytes.len() - 8 * words);
    let start = Wide {
        a: c as u64,
        b: 0,
        c: 0,
        d: 0,
        e: 0,
    };
    let end = wide::all(bytes, words, start);
    0xFFFFFFFF - (end.a as u32)
}
