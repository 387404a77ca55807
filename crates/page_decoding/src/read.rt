// From the bytes of a page to its elements, in lent words.
ghost use Rattle.std.specs.Prelude.{◌≡◌, ℕ, ◌+◌, ◌*◌, ◌≤◌, true, false, length, ◌≢◌};
ghost use Rattle.numbers.specs.Numbers.{little, bytes_for};
ghost use Rattle.numbers.specs.Rows.{over};
ghost use Rattle.coding.specs.Layout.{WholeBytes, DeltaWidth, SplitWidth, plain, unplain, unplanes};
ghost use Rattle.column_type.specs.Types.{width_of, split, delta, zigzag, Marked};
ghost use Rattle.page_rules.specs.Page.{elements};
ghost use Rattle.page_rules.specs.Widths.{read_width};
ghost use Rattle.page_decoding.specs.Blocks.{block_of};

use crate::bit::unpack;
use crate::difference::sum_up;
use crate::signed::unzigzag_all;
use planes::{clear_above, place_plane};

// The number of k bytes at a place: where k is a literal, the compiler keeps one branch.
fn number_at(k: usize, bytes: &[u8], at: usize) -> u64
    requires { WholeBytes k × (at + k ≤ length bytes.now) }
    ensures { result ≡ little k bytes.now at }
{
    if k == 1 {
        bytes[at] as u64
    } else if k == 2 {
        numbers::little_2(bytes, at)
    } else if k == 4 {
        numbers::little_4(bytes, at)
    } else {
        numbers::little_8(bytes, at)
    }
}

// The first n words become the numbers of k bytes that stand side by side, one after the other.
fn numbers_each(bytes: &[u8], k: usize, n: usize, out: &mut [u64])
    requires { WholeBytes k × (n ≤ length out.old) × (n * k ≤ length bytes.now) }
    ensures { out.new ≡ over (unplain k n bytes.now) out.old }
{
    for i in 0..n {
        out[i] = number_at(k, bytes, i * k);
    }
}

// The first words become these.
fn put_words(words: &[u64], out: &mut [u64])
    requires { length words.now ≤ length out.old }
    ensures { out.new ≡ over words.now out.old }
{
    for j in 0..words.len() {
        out[j] = words[j];
    }
}

// The first words become the two lowest bytes of each of these.
fn put_bytes(words: &[u64], out: &mut [u64])
    requires { length words.now * 2 ≤ length out.old }
    ensures { out.new ≡ over (plain 2 words.now) out.old }
{
    for j in 0..words.len() {
        out[2 * j] = words[j] % 256;
        out[2 * j + 1] = words[j] / 256 % 256;
    }
}

// So many numbers of k bytes are a block.
fn block_of(k: usize) -> usize
    ensures { result ≡ block_of k }
{
    if k == 1 { 16 } else { 8 }
}

// The numbers of a block. All of them are read before the first is stored: so the compiler stores two at once. Of single bytes it does so where
// they are read two at a time.
fn block_out(bytes: &[u8], k: usize, out: &mut [u64])
    requires { WholeBytes k × (block_of k ≤ length out.old) × (block_of k * k ≤ length bytes.now) }
    ensures { out.new ≡ over (unplain k (block_of k) bytes.now) out.old }
{
    let mut eight = [0u64; 8];
    if k == 1 {
        numbers_each(bytes, 2, 8, &mut eight);
        put_bytes(&eight, out);
    } else {
        numbers_each(bytes, k, 8, &mut eight);
        put_words(&eight, out);
    }
}

// The first n words become the numbers of k bytes that stand side by side, a block a turn. Called with k a literal: the compiler makes a loop for each k.
fn numbers_out(bytes: &[u8], k: usize, n: usize, out: &mut [u64])
    requires { WholeBytes k × (n ≤ length out.old) × (n * k ≤ length bytes.now) }
    ensures { out.new ≡ over (unplain k n bytes.now) out.old }
{
    let block = block_of(k);
    let whole = n / block;
    for m in 0..whole {
        let i = m * block;
        let at = i * k;
        let to = at + block * k;
        block_out(&bytes[at..to], k, &mut out[i..]);
    }
    let i = whole * block;
    let at = i * k;
    numbers_each(&bytes[at..], k, n - i, &mut out[i..]);
}

// The numbers of a plain page.
fn plain_out(page: &[u8], k: usize, n: usize, out: &mut [u64])
    requires { WholeBytes k × (n ≤ length out.old) × (n * k ≤ length page.now) }
    ensures { out.new ≡ over (unplain k n page.now) out.old }
{
    if k == 1 {
        numbers_out(&page[..n], 1, n, out);
    } else if k == 2 {
        let size = n * 2;
        numbers_out(&page[..size], 2, n, out);
    } else if k == 4 {
        let size = n * 4;
        numbers_out(&page[..size], 4, n, out);
    } else {
        let size = n * 8;
        numbers_out(&page[..size], 8, n, out);
    }
}

// The numbers of a split page. What no plane replaces is cleared; then each plane is gone through once, and its bytes are placed.
fn split_out(page: &[u8], k: usize, n: usize, out: &mut [u64])
    requires { (k ≤ 8) × (n ≤ length out.old) × (k * n ≤ length page.now) }
    ensures { out.new ≡ over (unplanes k n page.now) out.old }
{
    clear_above(k, &mut out[..n]);
    for p in 0..k {
        let from = p * n;
        let to = from + n;
        place_plane(p, &page[from..to], out);
    }
}

// Whether a split page has delta, of the widths that have it.
fn has_delta(width: u64, marks: u8) -> bool
    requires { read_width width ≡ true }
    ensures { (result ≡ true → DeltaWidth width) × ((t : ℕ) → width ≡ width_of t → Marked t marks → result ≡ delta t) }
{
    16 < width && column_type::delta_in(marks)
}

// The same of zigzag.
fn has_zigzag(width: u64, marks: u8) -> bool
    requires { read_width width ≡ true }
    ensures { (result ≡ true → SplitWidth width) × ((t : ℕ) → width ≡ width_of t → Marked t marks → result ≡ zigzag t) }
{
    8 < width && column_type::zigzag_in(marks)
}

// The first n words become the elements of a split page: its numbers, and then what delta or zigzag makes of them.
fn fill_split(width: u64, marks: u8, n: usize, page: &[u8], out: &mut [u64])
    requires { (read_width width ≡ true) × (width ≢ 1) × (bytes_for n width ≤ length page.now) × (n ≤ length out.old) }
    ensures { (t : ℕ) → width ≡ width_of t → Marked t marks → split t ≡ true → out.new ≡ over (elements t n page.now) out.old }
{
    split_out(page, (width / 8) as usize, n, out);
    if has_delta(width, marks) {
        sum_up(width, n, out);
        return;
    }
    if has_zigzag(width, marks) {
        unzigzag_all(width, n, out);
    }
}

// The first n words become the elements of a page. What is plain has neither delta nor zigzag.
pub fn fill(width: u64, marks: u8, n: usize, page: &[u8], out: &mut [u64])
    requires { (read_width width ≡ true) × (bytes_for n width ≤ length page.now) × (n ≤ length out.old) }
    ensures { (t : ℕ) → width ≡ width_of t → Marked t marks → out.new ≡ over (elements t n page.now) out.old }
{
    if width == 1 {
        unpack(page, n, out);
        return;
    }
    if column_type::split_in(marks) {
        fill_split(width, marks, n, page, out);
    } else {
        plain_out(page, (width / 8) as usize, n, out);
    }
}
