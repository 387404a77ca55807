// Little-endian numbers of two, four and eight bytes, and the bytes of a page's checksum.
#![tactic(auto)]

ghost use Rattle.std.specs.Prelude.{◌≡◌, ℕ, ◌+◌, ◌≤◌, ◌<◌, length};
ghost use Rattle.numbers.specs.Numbers.{little, Little, Room, trailer};

// There are `len` bytes from `at` on.
pub fn has_room(s: &[u8], at: usize, len: usize) -> bool
    ensures { Room s.now at len result }
{
    if s.len() < at {
        return false;
    }
    if len <= s.len() - at {
        return true;
    }
    false
}

// The number that two bytes from `at` on spell, 0 where they are not there; and likewise of four and eight.
pub fn little_2(s: &[u8], at: usize) -> u64
    ensures { Little 2 s.now at result × (result < 65536) }
{
    if has_room(s, at, 2) {
        return two(s, at);
    }
    0
}

pub fn little_4(s: &[u8], at: usize) -> u64
    ensures { Little 4 s.now at result × (result < 4294967296) }
{
    if has_room(s, at, 4) {
        return four(s, at);
    }
    0
}

pub fn little_8(s: &[u8], at: usize) -> u64
    ensures { Little 8 s.now at result }
{
    if has_room(s, at, 8) {
        return eight(s, at);
    }
    0
}

fn wide(x: u8) -> u64
    ensures { (result ≡ x) × (result < 256) }
{
    x as u64
}

// A number by its halves: the compiler makes one load of it.
fn two(s: &[u8], at: usize) -> u64
    requires { at + 2 ≤ length s.now }
    ensures { (result ≡ little 2 s.now at) × (result < 65536) }
{
    wide(s[at]) + 256 * wide(s[at + 1])
}

fn four(s: &[u8], at: usize) -> u64
    requires { at + 4 ≤ length s.now }
    ensures { (result ≡ little 4 s.now at) × (result < 4294967296) }
{
    two(s, at) + 65536 * two(s, at + 2)
}

fn eight(s: &[u8], at: usize) -> u64
    requires { at + 8 ≤ length s.now }
    ensures { result ≡ little 8 s.now at }
{
    four(s, at) + 4294967296 * four(s, at + 4)
}

// The bytes of the checksum behind a page, if one follows it.
pub fn trailer_size(checksum: bool) -> usize
    ensures { result ≡ trailer checksum }
{
    if checksum { 4 } else { 0 }
}
