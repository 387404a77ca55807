// Pages encoded: the elements of a column to bytes.
#![tactic(auto)]

mod bit;
mod number;
mod write;

ghost use Rattle.std.specs.Prelude.{◌≡◌, length};
ghost use Rattle.page_rules.specs.Page.{outcome_of, encode_outcome, encoded};

use page_rules::PageAnswer;

// Encodes so many elements, the lent words from `start` on, with a checksum behind them where it says so, over the first bytes of the lent page.
pub fn encode_page(
    column_type: u16,
    elements: usize,
    checksum: bool,
    words: &[u64],
    start: usize,
    page: &mut [u8],
) -> PageAnswer
    ensures answers { outcome_of result ≡ encode_outcome column_type elements checksum words.now start (length page.old) }
    ensures leaves { page.new ≡ encoded column_type elements checksum words.now start page.old }
{
    let t = column_type as u64;
    let size = page_rules::answer::encode_answer(t, elements, checksum, words, start, page.len())?;
    let end = start + elements;
    write::write_checked(t, checksum, size, &words[start..end], page);
    Ok(size)
}
