// Well-formed UTF-8, by the Unicode Standard's Table 3-7. Text that is ASCII is tested by blocks of bytes.
#![tactic(auto)]

ghost use Rattle.std.specs.Prelude.{◌≡◌, ◌+◌, ◌≤◌, ◌<◌, length, drop, [], ◌∷◌};
ghost use Rattle.utf8.specs.WellFormed.{well_formed, ◌to◌};
ghost use Rattle.utf8.specs.Walking.{ascii, begins, width, sized, limit, read_to, blocks_from};

// The least first byte of a sequence of two bytes.
const LEAST_OF_TWO: u8 = 0xC2;

// Every byte is below 128. The bits of all bytes are joined, which the compiler does many bytes at a time.
pub fn is_ascii(s: &[u8]) -> bool
    ensures { result ≡ ascii s.now }
{
    let mut all: u8 = 0;
    for byte in s {
        all |= *byte;
    }
    all < 128
}

// There is a byte at `at`, from `least` to `most`.
fn byte_in(s: &[u8], at: usize, least: u8, most: u8) -> bool
    ensures { result ≡ begins (least to most ∷ []) (drop at s.now) }
{
    if at < s.len() {
        let b = s[at];
        if least <= b {
            return b <= most;
        }
        return false;
    }
    false
}

// A limit of the second byte, which two first bytes narrow.
fn limit(first: u8, one: u8, after_one: u8, other: u8, after_other: u8, plain: u8) -> u8
    ensures { result ≡ limit first one after_one other after_other plain }
{
    if first == one {
        return after_one;
    }
    if first == other {
        return after_other;
    }
    plain
}

// How many bytes the sequence at `at` has, None where it is ill-formed.
fn sequence_at(s: &[u8], at: usize) -> Option<usize>
    requires { at < length s.now }
    ensures { result ≡ sized (width (drop at s.now)) }
{
    let first = s[at];
    if first < 0x80 {
        return Some(1);
    }
    // A range of values is one comparison, and text of two-byte characters takes this path each time.
    if LEAST_OF_TWO <= first && first < 0xE0 {
        if byte_in(s, at + 1, 0x80, 0xBF) {
            return Some(2);
        }
        return None;
    }
    if first < 0xE0 || 0xF4 < first {
        return None;
    }
    let least = limit(first, 0xE0, 0xA0, 0xF0, 0x90, 0x80);
    let most = limit(first, 0xED, 0x9F, 0xF4, 0x8F, 0xBF);
    if !byte_in(s, at + 1, least, most) {
        return None;
    }
    if !byte_in(s, at + 2, 0x80, 0xBF) {
        return None;
    }
    if first < 0xF0 {
        return Some(3);
    }
    if !byte_in(s, at + 3, 0x80, 0xBF) {
        return None;
    }
    Some(4)
}

// Where whole sequences have been read to, from `from` on, sequence by sequence, up to `end` or to the end of the sequence that crosses it.
// None where one is ill-formed.
fn walk(s: &[u8], from: usize, end: usize) -> Option<usize>
    requires { (from ≤ length s.now) × (end ≤ length s.now) }
    ensures { result ≡ read_to s.now from end }
{
    let mut at = from;
    // No `for`: the place moves on by the length of a sequence.
    while at < end {
        let width = sequence_at(s, at)?;
        at += width;
    }
    Some(at)
}

// The same over `size` bytes, at once where they are ASCII. Inlined, as `blocks` is: where the size is known, the test for ASCII needs no loop.
#[inline(always)]
fn block(s: &[u8], from: usize, size: usize) -> Option<usize>
    requires { from + size ≤ length s.now }
    ensures { result ≡ read_to s.now from (from + size) }
{
    let end = from + size;
    if is_ascii(&s[from..end]) {
        return Some(end);
    }
    walk(s, from, end)
}

// The same over as many blocks of `size` bytes as there are.
#[inline(always)]
fn blocks(s: &[u8], from: usize, size: usize) -> Option<usize>
    requires { (from ≤ length s.now) × (0 < size) }
    ensures { result ≡ blocks_from (length s.now) s.now size from }
{
    let mut at = from;
    // No `for`: a block ends where the sequence that crosses its end does.
    while size <= s.len() - at {
        at = block(s, at, size)?;
    }
    Some(at)
}

// Whether the bytes are well-formed UTF-8: large blocks first, then words of 8 bytes, then what is left.
pub fn well_formed(s: &[u8]) -> bool
    ensures { result ≡ well_formed s.now }
{
    let Some(large) = blocks(s, 0, 32) else {
        return false;
    };
    let Some(small) = blocks(s, large, 8) else {
        return false;
    };
    walk(s, small, s.len()).is_some()
}
