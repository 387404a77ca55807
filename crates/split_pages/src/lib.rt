// Split pages written: delta or zigzag on the elements, then their bytes plane by plane.
#![tactic(auto)]

mod difference;
mod number;
mod signed;
mod turn;
mod write;

ghost use Rattle.std.specs.Prelude.{◌≡◌, ℕ, Bool};
ghost use Rattle.split_pages.specs.Split.{splits, split_into};

// Whether elements of a width are split, with delta where it says so.
fn is_split(delta: bool, width: u64) -> bool
    ensures { result ≡ splits delta width }
{
    if width == 16 {
        return !delta;
    }
    width == 32 || width == 64
}

// The planes of the elements, over the first bytes of the lent ones; where the width is no split page's, or the room too small, nothing is written.
// The test stands once before a page, not in its loops.
pub fn write_split(delta: bool, zigzag: bool, width: u64, words: &[u64], out: &mut [u8])
    ensures { out.new ≡ split_into delta zigzag width words.now out.old }
{
    let n = words.len();
    if is_split(delta, width) {
        if n * ((width / 8) as usize) <= out.len() {
            if n < 8 {
                write::write_few(delta, zigzag, width, words, out);
            } else {
                write::write_many(delta, zigzag, width, words, out);
            }
        }
    }
}
