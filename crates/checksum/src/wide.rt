// The register of the CRC-32 held wide: a word of eight bytes at a time, by shifts and exclusive or, with no table. A word is not taken through
// the register but put on words after it, where it comes to the same. Where to is given by a multiple of the polynomial that has few
// terms, a shift for each; the fewer words are left, the more terms it takes. The last word alone goes through the register.
ghost use Rattle.std.specs.Prelude.{◌≡◌, ◌*◌, ◌-◌, ◌≤◌, min, length};
ghost use Rattle.numbers.specs.Numbers.{little};
ghost use Rattle.checksum.specs.Wide.{finish};

// Five words, each to be put on one of the next words of the bytes.
#[derive(Clone, Copy)]
pub struct Wide {
    pub a: u64,
    pub b: u64,
    pub c: u64,
    pub d: u64,
    pub e: u64,
}

// The first of the last words.
fn word(bytes: &[u8], left: usize) -> u64
    requires { (1 ≤ left) × (8 * left ≤ length bytes.now) }
    ensures { result ≡ little 8 bytes.now (length bytes.now - 8 * left) }
{
    numbers::little_8(bytes, bytes.len() - 8 * left)
}

// The register after the next word, of six or more that are left.
fn next(bytes: &[u8], left: usize, s: Wide) -> Wide
    requires { (6 ≤ left) × (8 * left ≤ length bytes.now) }
    ensures { finish (left - 1) bytes.now result ≡ finish left bytes.now s }
{
    let x = s.a ^ word(bytes, left);
    Wide {
        a: s.b,
        b: s.c ^ (x << 17) ^ (x << 55),
        c: s.d ^ (x >> 47) ^ (x >> 9) ^ (x << 19),
        d: s.e ^ (x >> 45) ^ (x << 44),
        e: x >> 20,
    }
}

// The register where five words are left, or all if there are fewer.
fn many(bytes: &[u8], words: usize, start: Wide) -> Wide
    requires { 8 * words ≤ length bytes.now }
    ensures { finish (min words 5) bytes.now result ≡ finish words bytes.now start }
{
    let mut s = start;
    for left in (6..=words).rev() {
        s = next(bytes, left, s);
    }
    s
}

// The register after the next word where five words are left, unless there were fewer; and likewise of four, three, two and one.
fn with_5(bytes: &[u8], words: usize, s: Wide) -> Wide
    requires { 8 * words ≤ length bytes.now }
    ensures { finish (min words 4) bytes.now result ≡ finish (min words 5) bytes.now s }
{
    if words < 5 {
        return s;
    }
    let x = s.a ^ word(bytes, 5);
    Wide {
        a: s.b,
        b: s.c ^ (x << 53),
        c: s.d ^ (x >> 11) ^ (x << 7) ^ (x << 63),
        d: s.e ^ (x >> 57) ^ (x >> 1) ^ (x << 7) ^ (x << 18),
        e: (x >> 57) ^ (x >> 46),
    }
}

fn with_4(bytes: &[u8], words: usize, s: Wide) -> Wide
    requires { 8 * words ≤ length bytes.now }
    ensures { finish (min words 3) bytes.now result ≡ finish (min words 4) bytes.now s }
{
    if words < 4 {
        return s;
    }
    let x = s.a ^ word(bytes, 4);
    Wide {
        a: s.b,
        b: s.c ^ (x << 1) ^ (x << 10) ^ (x << 22) ^ (x << 41) ^ (x << 55),
        c: s.d ^ (x >> 63) ^ (x >> 54) ^ (x >> 42) ^ (x >> 23) ^ (x >> 9) ^ (x << 20),
        d: s.e ^ (x >> 44),
        e: 0,
    }
}

fn with_3(bytes: &[u8], words: usize, s: Wide) -> Wide
    requires { 8 * words ≤ length bytes.now }
    ensures { finish (min words 2) bytes.now result ≡ finish (min words 3) bytes.now s }
{
    if words < 3 {
        return s;
    }
    let x = s.a ^ word(bytes, 3);
    Wide {
        a: s.b ^ (x << 13) ^ (x << 16) ^ (x << 24) ^ (x << 47) ^ (x << 62),
        b: s.c ^ (x >> 51) ^ (x >> 48) ^ (x >> 40) ^ (x >> 17) ^ (x >> 2) ^ (x << 3) ^ (x << 11),
        c: s.d ^ (x >> 61) ^ (x >> 53),
        d: s.e,
        e: 0,
    }
}

fn with_2(bytes: &[u8], words: usize, s: Wide) -> Wide
    requires { 8 * words ≤ length bytes.now }
    ensures { finish (min words 1) bytes.now result ≡ finish (min words 2) bytes.now s }
{
    if words < 2 {
        return s;
    }
    let x = s.a ^ word(bytes, 2);
    Wide {
        a: s.b
            ^ (x << 1)
            ^ (x << 2)
            ^ (x << 3)
            ^ (x << 4)
            ^ (x << 7)
            ^ (x << 17)
            ^ (x << 19)
            ^ (x << 21)
            ^ (x << 23)
            ^ (x << 26)
            ^ (x << 27)
            ^ (x << 30)
            ^ (x << 31),
        b: s.c
            ^ (x >> 63)
            ^ (x >> 62)
            ^ (x >> 61)
            ^ (x >> 60)
            ^ (x >> 57)
            ^ (x >> 47)
            ^ (x >> 45)
            ^ (x >> 43)
            ^ (x >> 41)
            ^ (x >> 38)
            ^ (x >> 37)
            ^ (x >> 34)
            ^ (x >> 33),
        c: s.d,
        d: s.e,
        e: 0,
    }
}

fn with_1(bytes: &[u8], words: usize, s: Wide) -> Wide
    requires { 8 * words ≤ length bytes.now }
    ensures { finish (min words 0) bytes.now result ≡ finish (min words 1) bytes.now s }
{
    if words < 1 {
        return s;
    }
    let x = s.a ^ word(bytes, 1);
    Wide {
        a: s.b ^ crc_register::reduce(x),
        b: s.c,
        c: s.d,
        d: s.e,
        e: 0,
    }
}

// The register after the last words.
pub fn all(bytes: &[u8], words: usize, start: Wide) -> Wide
    requires { 8 * words ≤ length bytes.now }
    ensures { finish 0 bytes.now result ≡ finish words bytes.now start }
{
    let s5 = many(bytes, words, start);
    let s4 = with_5(bytes, words, s5);
    let s3 = with_4(bytes, words, s4);
    let s2 = with_3(bytes, words, s3);
    let s1 = with_2(bytes, words, s2);
    with_1(bytes, words, s1)
}
