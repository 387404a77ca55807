// A column in one call: its pages are decoded in turn.
#![tactic(auto)]

ghost use Rattle.std.specs.Prelude.{◌≡◌, ℕ, length};
ghost use Rattle.column_type.specs.Types.{width_of, Marked};
ghost use Rattle.page_rules.specs.Page.{outcome_of as singleOutcome};
ghost use Rattle.column_rules.specs.Column.{outcome_of, column_page, page_outcome, page_decoded, whole_column};

use column_rules::{COLUMN_PAGE_WORDS, ColumnAnswer, ColumnPage, MOST_COLUMN_PAGES, RefusedPage};
use page_rules::PageAnswer;

// Decodes the pages of a lent table, which lie in a lent part of a file, into the lent words: page after page from the first word on, without
// gaps. The first page that is refused ends it; what was decoded before stays.
pub fn decode_column(column_type: u16, pages: &[u64], file: &[u8], out: &mut [u64]) -> ColumnAnswer
    ensures answers { outcome_of result ≡ (whole_column column_type file.now pages.now out.old).outcome }
    ensures leaves { out.new ≡ (whole_column column_type file.now pages.now out.old).words }
{
    let count = pages.len() / COLUMN_PAGE_WORDS;
    if MOST_COLUMN_PAGES < count {
        return Err(RefusedPage {
            number: 10,
            page: MOST_COLUMN_PAGES,
        });
    }
    let t = column_type as u64;
    let width = column_type::width_of(t);
    let marks = column_type::marks_of(t);
    let mut start = 0;
    for i in 0..count {
        match decode_one(width, marks, page_at(pages, i), file, out, start) {
            Ok(elements) => {
                start += elements;
            }
            Err(number) => {
                return Err(RefusedPage { number, page: i });
            }
        }
    }
    Ok(count)
}

// Row i of a table of pages; zeros where it has no such row whole.
fn page_at(pages: &[u64], i: usize) -> ColumnPage
    ensures { result ≡ column_page pages.now i }
{
    let row = i as u64;
    let checksum = rows::word(pages, COLUMN_PAGE_WORDS, row, 3) != 0;
    ColumnPage {
        offset: rows::word(pages, COLUMN_PAGE_WORDS, row, 0),
        size: rows::word(pages, COLUMN_PAGE_WORDS, row, 1),
        elements: rows::word(pages, COLUMN_PAGE_WORDS, row, 2),
        checksum,
    }
}

// One page, into the lent words from `start` on. A page whose bytes are not all in the file part is refused; for any other it is the single
// call that decides.
#[tactic(auto, using(crate::proofs::Turns::is_within))]
fn decode_one(
    width: u64,
    marks: u8,
    page: ColumnPage,
    file: &[u8],
    out: &mut [u64],
    start: usize,
) -> PageAnswer
    ensures answers { (t : ℕ) → width ≡ width_of t → singleOutcome result ≡ page_outcome t file.now page (length out.old) start }
    ensures leaves { (t : ℕ) → width ≡ width_of t → Marked t marks → out.new ≡ page_decoded t file.now page out.old start }
{
    let elements = page.elements as usize;
    let behind = numbers::trailer_size(page.checksum);
    if locator::in_file(file.len() as u64, page.size, behind as u64, page.offset) != 0 {
        return page_rules::answer::outside_answer(width, elements);
    }
    let from = page.offset as usize;
    let to = from + (page.size as usize) + behind;
    page_decoding::decode_as(
        width,
        marks,
        elements,
        page.checksum,
        &file[from..to],
        out,
        start,
    )
}
