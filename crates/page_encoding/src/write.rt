// From elements, in lent words, to the bytes of a page.
ghost use Rattle.std.specs.Prelude.{◌≡◌, Bool, true, false, ℕ, ◌+◌, ◌*◌, ◌<◌, ◌≤◌, length, take, drop};
ghost use Rattle.numbers.specs.Rows.{over};
ghost use Rattle.checksum.specs.Crc.{crc32};
ghost use Rattle.column_type.specs.Types.{width_of};
ghost use Rattle.coding.specs.Layout.{WholeBytes, plain, fit};
ghost use Rattle.numbers.specs.Numbers.{trailer};
ghost use Rattle.page_rules.specs.Page.{readable, most_elements, size_of, bytes, checked_page};
ghost use Rattle.coding.specs.Strides.{puts};

use crate::bit::pack;
use crate::number::put_number;

// The eight elements from a place on.
fn eight_words(words: &[u64], from: usize) -> [u64; 8]
    requires { from + 8 ≤ length words.now }
    ensures { result ≡ take 8 (drop from words.now) }
{
    [
        words[from],
        words[from + 1],
        words[from + 2],
        words[from + 3],
        words[from + 4],
        words[from + 5],
        words[from + 6],
        words[from + 7],
    ]
}

// Elements one after the other.
fn write_each(k: usize, words: &[u64], out: &mut [u8])
    requires { length words.now * k ≤ length out.old }
    ensures { out.new ≡ over (plain k words.now) out.old }
{
    for i in 0..words.len() {
        put_number(k, words[i], i * k, out);
    }
}

// The elements of a plain page, eight a turn, as far as that goes: so many. Eight are read before the first of them is stored: the compiler
// stores them at once, and the time does not hang on where the loop's code lies.
fn write_eights(k: usize, words: &[u64], out: &mut [u8]) -> usize
    requires { length words.now * k ≤ length out.old }
    ensures { (result ≤ length words.now) × (out.new ≡ over (plain k (take result words.now)) out.old) }
{
    let whole = words.len() / 8;
    for m in 0..whole {
        let i = 8 * m;
        let eight = eight_words(words, i);
        let at = i * k;
        write_each(k, &eight, &mut out[at..]);
    }
    8 * whole
}

// The same with k a literal: the compiler makes a loop for each. Of elements of one byte it makes no wider stores, and they go one after the other.
fn write_most(k: usize, words: &[u64], out: &mut [u8]) -> usize
    requires { WholeBytes k × (length words.now * k ≤ length out.old) }
    ensures { (result ≤ length words.now) × (out.new ≡ over (plain k (take result words.now)) out.old) }
{
    if k == 1 {
        write_each(1, words, out);
        words.len()
    } else if k == 2 {
        write_eights(2, words, out)
    } else if k == 4 {
        write_eights(4, words, out)
    } else {
        write_eights(8, words, out)
    }
}

// A plain page: most of it, and then the rest.
fn write_plain(k: usize, words: &[u64], out: &mut [u8])
    requires { WholeBytes k × (length words.now * k ≤ length out.old) }
    ensures { out.new ≡ over (plain k words.now) out.old }
{
    let done = write_most(k, words, out);
    let at = done * k;
    write_each(k, &words[done..], &mut out[at..]);
}

// The page of elements that fit, over the first bytes of the lent ones.
fn write_page(column_type: u64, words: &[u64], out: &mut [u8])
    requires { (readable column_type ≡ true) × (length words.now ≤ most_elements) × (fit (width_of column_type) words.now ≡ true)
        × (size_of column_type (length words.now) ≤ length out.old) }
    ensures { out.new ≡ over (bytes column_type words.now) out.old }
{
    let width = column_type::width_of(column_type);
    if column_type == 6 {
        pack(words, out);
    } else if column_type::is_split(column_type) {
        let delta = column_type::is_delta(column_type);
        let zigzag = column_type::is_zigzag(column_type);
        split_pages::write_split(delta, zigzag, width, words, out);
    } else {
        write_plain((width / 8) as usize, words, out);
    }
}

// The checksum of the first bytes, behind them.
fn add_checksum(size: usize, out: &mut [u8])
    requires { size + 4 ≤ length out.old }
    ensures { out.new ≡ puts 4 (crc32 (take size out.old)) size out.old }
{
    let sum = checksum::crc32(&out[..size]);
    put_number(4, sum as u64, size, out);
}

// The page of elements that fit, with its checksum where one is asked for: so many bytes in all.
pub fn write_checked(column_type: u64, checksum: bool, size: usize, words: &[u64], out: &mut [u8])
    requires { (readable column_type ≡ true) × (length words.now ≤ most_elements) × (fit (width_of column_type) words.now ≡ true)
        × (size ≡ size_of column_type (length words.now) + trailer checksum) × (size ≤ length out.old) }
    ensures { out.new ≡ over (checked_page checksum (bytes column_type words.now)) out.old }
{
    write_page(column_type, words, out);
    if checksum {
        add_checksum(size - 4, out);
    }
}
