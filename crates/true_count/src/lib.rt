// How many elements of a Bit page are true.
#![tactic(auto)]

mod ones;

ghost use Rattle.std.specs.Prelude.{◌≡◌};
ghost use Rattle.true_count.specs.True.{outcome_of, count_outcome};

use page_rules::answer::decode_answer;

// How many elements are true, or the number of the rule that refuses the page; the envelope is 4.
pub type CountAnswer = Result<u64, u16>;

// The bits of an element of a Bit page, by which such a page is told.
const BIT_WIDTH: u64 = 1;

// The page is refused as decoding it to as many lent words as it has elements would be.
pub fn count_true(elements: usize, checksum: bool, page: &[u8]) -> CountAnswer
    ensures { outcome_of result ≡ count_outcome elements checksum page.now }
{
    decode_answer(BIT_WIDTH, elements, checksum, page, elements, 0)?;
    let size = (elements + 7) / 8;
    Ok(ones::count_all(&page[..size]))
}
