// The tests of a page call, in document 01's order.
ghost use Rattle.std.specs.Prelude.{◌≡◌, Bool, true, false, ℕ, ◌+◌, ◌*◌, ◌-◌, ◌/◌, ◌%◌, ◌^◌, ◌<◌, ◌≤◌, length, take, drop, leb};
ghost use Rattle.numbers.specs.Numbers.{bytes_for, trailer};
ghost use Rattle.outcome.specs.Outcome.{is_accepted};
ghost use Rattle.column_type.specs.Types.{width_of};
ghost use Rattle.page_rules.specs.Widths.{read_width, FitsWidth};
ghost use Rattle.page_rules.specs.Page.{most_elements, unused_clear, checksum_right, outcome_of, refuse, asked, decode_outcome, encode_outcome};
ghost use Rattle.coding.specs.Layout.{fit, FitsAs};

use crate::PageAnswer;
use crate::number::most;

// The most elements in one page call.
const MOST_ELEMENTS: usize = 131072;

// A width whose pages are read: that of each known type but Switch.
fn is_readable(width: u64) -> bool
    ensures { result ≡ read_width width }
{
    width == 1 || (width == 8 || (width == 16 || (width == 32 || width == 64)))
}

// The bytes of a page of n elements, without its checksum.
fn page_size(width: u64, n: usize) -> usize
    requires { (read_width width ≡ true) × (n ≤ most_elements) }
    ensures { (result ≡ bytes_for n width) × (result ≤ 1048576) }
{
    (n * (width as usize) + 7) / 8
}

// The checksum behind the page, if there is one, is that of the page.
fn checksum_right(checksum: bool, size: usize, page: &[u8]) -> bool
    requires { length page.now ≡ size + trailer checksum }
    ensures { result ≡ checksum_right checksum size page.now }
{
    if checksum {
        checksum::crc32(&page[..size]) as u64 == numbers::little_4(page, size)
    } else {
        true
    }
}

// The unused bits of a Bit page's last byte are zero.
fn unused_clear(width: u64, n: usize, page: &[u8]) -> bool
    requires { bytes_for n width ≤ length page.now }
    ensures { (t : ℕ) → width ≡ width_of t → result ≡ unused_clear t n page.now }
{
    if width == 1 {
        let used = n % 8;
        if used == 0 {
            true
        } else {
            (page[n / 8] as u64) >> used == 0
        }
    } else {
        true
    }
}

// Start plus count does not pass the lent words.
fn has_room(words: usize, start: usize, n: usize) -> bool
    ensures { result ≡ leb (start + n) words }
{
    if n <= words {
        start <= words - n
    } else {
        false
    }
}

// The bits of so many words from a place on.
fn joined(words: &[u64], from: usize, count: usize) -> u64
    requires { from + count ≤ length words.now }
    ensures { FitsAs result (take count (drop from words.now)) }
{
    let mut all: u64 = 0;
    for i in 0..count {
        all |= words[from + i];
    }
    all
}

// Every word is below 2 to the width: the bits of all of them are.
// Thirty-two words a turn, which the compiler writes out: how long a turn of a few takes depends on where its code happens to lie.
fn all_fit(width: u64, words: &[u64]) -> bool
    requires { width ≤ 64 }
    ensures { result ≡ fit width words.now }
{
    let limit = most(width);
    let groups = words.len() / 32;
    let mut all: u64 = 0;
    for g in 0..groups {
        all |= joined(words, 32 * g, 32);
    }
    all |= joined(words, 32 * groups, words.len() % 32);
    all <= limit
}

// The answer on a page of a type that has this width. Whatever the width, an acceptance says that the page has its elements and the words room for them.
pub fn decode_answer(
    width: u64,
    n: usize,
    checksum: bool,
    page: &[u8],
    words: usize,
    start: usize,
) -> PageAnswer
    ensures answers { (t : ℕ) → width ≡ width_of t → outcome_of result ≡ decode_outcome t n checksum page.now words start }
    ensures fits { is_accepted (outcome_of result) ≡ true → FitsWidth width n page.now words start }
{
    if !is_readable(width) {
        return Err(23);
    }
    if MOST_ELEMENTS < n {
        return Err(10);
    }
    let size = page_size(width, n);
    if page.len() != size + numbers::trailer_size(checksum) {
        return Err(21);
    }
    if !checksum_right(checksum, size, page) {
        return Err(22);
    }
    if !unused_clear(width, n, page) {
        return Err(24);
    }
    if has_room(words, start, n) {
        Ok(n)
    } else {
        Err(20)
    }
}

// The answer on a page whose bytes are not where they are said to be: 18, but what is asked of type, by its width, and elements comes first.
pub fn outside_answer(width: u64, n: usize) -> PageAnswer
    ensures { (t : ℕ) → width ≡ width_of t → outcome_of result ≡ asked t n (refuse 18) }
{
    if !is_readable(width) {
        return Err(23);
    }
    if MOST_ELEMENTS < n {
        return Err(10);
    }
    Err(18)
}

pub fn encode_answer(
    column_type: u64,
    n: usize,
    checksum: bool,
    words: &[u64],
    start: usize,
    room: usize,
) -> PageAnswer
    ensures { outcome_of result ≡ encode_outcome column_type n checksum words.now start room }
{
    let width = column_type::width_of(column_type);
    if !is_readable(width) {
        return Err(23);
    }
    if MOST_ELEMENTS < n {
        return Err(10);
    }
    if !has_room(words.len(), start, n) {
        return Err(20);
    }
    let size = page_size(width, n) + numbers::trailer_size(checksum);
    if room < size {
        return Err(20);
    }
    let end = start + n;
    if all_fit(width, &words[start..end]) {
        Ok(size)
    } else {
        Err(25)
    }
}
