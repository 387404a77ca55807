// Ones among bytes, counted a machine word at a time.
ghost use Rattle.std.specs.Prelude.{◌≡◌, ◌+◌, ◌-◌, ◌*◌, ◌<◌, ◌≤◌, length};
ghost use Rattle.std.specs.Int.Count.{ones};
ghost use Rattle.numbers.specs.Numbers.{little};

fn wide(x: u8) -> u64
    ensures { (result ≡ x) × (result < 256) }
{
    x as u64
}

// The number that the bytes from `at` on spell, fewer than eight.
fn last_word(s: &[u8], at: usize) -> u64
    requires { (at ≤ length s.now) × (length s.now < at + 8) }
    ensures { result ≡ little (length s.now - at) s.now at }
{
    let mut word: u64 = 0;
    for i in (at..s.len()).rev() {
        word = word * 256 + wide(s[i]);
    }
    word
}

fn count(word: u64) -> u64
    ensures { (result ≡ ones word) × (result ≤ 64) }
{
    u64::count_ones(word) as u64
}

// How many ones the bytes have: those of the words that eight bytes each make, and of the word of the rest.
// A word is read from a part of eight bytes: the compiler knows its length, and with no test left in the loop counts several words at once.
pub fn count_all(s: &[u8]) -> u64
    requires { length s.now ≤ 16384 }
    ensures { result ≡ ones (little (length s.now) s.now 0) }
{
    let words = s.len() / 8;
    let mut total: u64 = 0;
    for i in 0..words {
        let from = 8 * i;
        let end = from + 8;
        total += count(numbers::little_8(&s[from..end], 0));
    }
    total + count(last_word(s, 8 * words))
}
