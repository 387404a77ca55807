// Numbers and bytes stored into lent bytes from a place on. Each call tests once whether there is room, and answers the place after what it
// stored; where there is no room it stores less, or nothing, and its answer says nothing.
#![tactic(auto)]

mod framed;

ghost use Rattle.std.specs.Prelude.{◌≡◌, ◌++◌, ◌+◌, ◌-◌, ◌^◌, ◌≤◌, length, take};
ghost use Rattle.std.proofs.lemmas.List.Edits.{sets};
ghost use Rattle.checksum.specs.Crc.{crc32};
ghost use Rattle.tree.specs.Bytes.{spelled};
ghost use Rattle.stores.specs.Stored.{Stored};

pub use framed::{StoreItems, StoreRow, store_list, store_rows};

// The k lowest bytes of a number, the least significant first. With k a literal the compiler makes one store of them; the room is tested by
// two comparisons of which the first does not hang on the place, so that a loop makes it once.
fn store_number(k: usize, x: u64, at: usize, out: &mut [u8]) -> usize
    ensures { Stored out.old at (spelled k x) out.new result }
{
    if out.len() < k {
        return at;
    }
    if out.len() - k < at {
        return at;
    }
    let mut rest = x;
    for j in 0..k {
        out[at + j] = (rest % 256) as u8;
        rest = rest / 256;
    }
    at + k
}

pub fn store_2(x: u64, at: usize, out: &mut [u8]) -> usize
    ensures { Stored out.old at (spelled 2 x) out.new result }
{
    store_number(2, x, at, out)
}

pub fn store_4(x: u64, at: usize, out: &mut [u8]) -> usize
    ensures { Stored out.old at (spelled 4 x) out.new result }
{
    store_number(4, x, at, out)
}

pub fn store_8(x: u64, at: usize, out: &mut [u8]) -> usize
    ensures { Stored out.old at (spelled 8 x) out.new result }
{
    store_number(8, x, at, out)
}

// Bytes as they are.
pub fn store_bytes(bytes: &[u8], at: usize, out: &mut [u8]) -> usize
    ensures { Stored out.old at bytes.now out.new result }
{
    if numbers::has_room(out, at, bytes.len()) {
        // By index: the library's copy calls `memmove`, which the archive for C needs for nothing else, and which is slow for empty strings.
        for i in 0..bytes.len() {
            out[at + i] = bytes[i];
        }
        return at + bytes.len();
    }
    at
}

// The size word of a list.
fn size_word(size: usize) -> u64
    ensures { result ≡ 2 ^ 32 - size }
{
    if size <= 4294967296 {
        return 4294967296 - size as u64;
    }
    0
}

// The head of a list frame of so many bytes with n items.
pub fn store_list_head(size: usize, n: usize, at: usize, out: &mut [u8]) -> usize
    ensures { Stored out.old at (spelled 4 (2 ^ 32 - size) ++ spelled 4 n) out.new result }
{
    let next = store_4(size_word(size), at, out);
    store_4(n as u64, next, out)
}

// The checksum of the bytes before a place, stored there.
pub fn store_checksum(end: usize, out: &mut [u8])
    ensures { end + 4 ≤ length out.old → out.new ≡ sets out.old end (spelled 4 (crc32 (take end out.old))) }
{
    if end <= out.len() {
        let sum = checksum::crc32(&out[..end]);
        store_number(4, sum as u64, end, out);
    }
}
