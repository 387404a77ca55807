// The planes of a split page, from elements in lent words.
ghost use Rattle.std.specs.Prelude.{◌≡◌, ℕ, ◌+◌, ◌*◌, ◌/◌, ◌<◌, ◌≤◌, Bool, true, false, length, slice_index};
ghost use Rattle.numbers.specs.Rows.{over};
ghost use Rattle.coding.specs.Layout.{planes};
ghost use Rattle.split_pages.specs.Turn.{Turned, Widths};
ghost use Rattle.split_pages.specs.Split.{codes};

use crate::difference::difference;
use crate::number::byte_of;
use crate::signed::zigzag as zigzag_form;
use crate::turn::put_rows;

// The number that is stored for element i: its difference from the one before, its zigzag form, or itself.
fn code_at(delta: bool, zigzag: bool, width: u64, words: &[u64], i: usize) -> u64
    requires { Widths delta width × (i < length words.now) }
    ensures { result ≡ slice_index (codes delta zigzag width 0 words.now) i }
{
    let x = words[i];
    if delta {
        if i == 0 {
            return difference(width, x, 0);
        }
        return difference(width, x, words[i - 1]);
    }
    if zigzag {
        return zigzag_form(width, x);
    }
    x
}

// The planes' bytes of the eight elements from i on.
fn write_eight(delta: bool, zigzag: bool, width: u64, words: &[u64], i: usize, out: &mut [u8])
    requires { Widths delta width × (i + 8 ≤ length words.now) × (length words.now * (width / 8) ≤ length out.old) }
    ensures { Turned (width / 8) (length words.now) i (λ e. slice_index (codes delta zigzag width 0 words.now) (i + e)) out.old out.new }
{
    let n = words.len();
    let a = code_at(delta, zigzag, width, words, i);
    let b = code_at(delta, zigzag, width, words, i + 1);
    let c = code_at(delta, zigzag, width, words, i + 2);
    let d = code_at(delta, zigzag, width, words, i + 3);
    let e = code_at(delta, zigzag, width, words, i + 4);
    let f = code_at(delta, zigzag, width, words, i + 5);
    let g = code_at(delta, zigzag, width, words, i + 6);
    let h = code_at(delta, zigzag, width, words, i + 7);
    put_rows(width, a, b, c, d, e, f, g, h, i, n, out);
}

// A split page of eight elements or more: eight at a time, and the last eight once more. Called with the marks and the width literals
// where these are to have a loop of their own.
fn write_eights(delta: bool, zigzag: bool, width: u64, words: &[u64], out: &mut [u8])
    requires { Widths delta width × (8 ≤ length words.now) × (length words.now * (width / 8) ≤ length out.old) }
    ensures { out.new ≡ over (planes (width / 8) (codes delta zigzag width 0 words.now)) out.old }
{
    let last = words.len() - 8;
    for i in (0..last).step_by(8) {
        write_eight(delta, zigzag, width, words, i, out);
    }
    write_eight(delta, zigzag, width, words, last, out);
}

// A split page of fewer, byte by byte.
pub fn write_few(delta: bool, zigzag: bool, width: u64, words: &[u64], out: &mut [u8])
    requires { Widths delta width × (length words.now < 8) × (length words.now * (width / 8) ≤ length out.old) }
    ensures { out.new ≡ over (planes (width / 8) (codes delta zigzag width 0 words.now)) out.old }
{
    let n = words.len();
    let size = n * ((width / 8) as usize);
    for p in 0..size {
        out[p] = byte_of(code_at(delta, zigzag, width, words, p % n), p / n);
    }
}

// A split page of eight elements or more. Without delta and zigzag, elements of 16 and of 32 bits have loops of their own; the compiler makes none of the
// others.
pub fn write_many(delta: bool, zigzag: bool, width: u64, words: &[u64], out: &mut [u8])
    requires { Widths delta width × (8 ≤ length words.now) × (length words.now * (width / 8) ≤ length out.old) }
    ensures { out.new ≡ over (planes (width / 8) (codes delta zigzag width 0 words.now)) out.old }
{
    if delta {
        write_eights(delta, zigzag, width, words, out);
    } else if zigzag {
        write_eights(delta, zigzag, width, words, out);
    } else if width == 16 {
        write_eights(false, false, 16, words, out);
    } else if width == 32 {
        write_eights(false, false, 32, words, out);
    } else {
        write_eights(delta, zigzag, width, words, out);
    }
}
