// A page that is to be written, by the words of its row, and the pages of one column.
ghost use Rattle.std.specs.Prelude.{◌≡◌, [], ◌/◌, ◌≤◌, length};
ghost use Rattle.rows.specs.Words.{most_pages};
ghost use Rattle.pages.specs.Pages.{running_total};
ghost use Rattle.writing.specs.Piece.{list_piece, pieces};
ghost use Rattle.writing.specs.Rows.{page_words_at, page_rows_in};
ghost use Rattle.writing.specs.PageList.{page_piece, page_item};
ghost use Rattle.page_list_check.specs.Checks.{Summed};

use writing::PageWords;

// The first refusal of the pages of a column, and how many elements they have where there is none.
#[derive(Clone, Copy)]
pub struct ColumnSum {
    pub number: u16,
    pub elements: u64,
}

// Row i of a table of pages; zeros where the table has no such row whole.
pub fn page_words(pages: &[u64], i: usize) -> PageWords
    ensures { result ≡ page_words_at pages.now i }
{
    let row = i as u64;
    PageWords {
        column: rows::word(pages, rows::PAGE_WORDS, row, 0),
        elements: rows::word(pages, rows::PAGE_WORDS, row, 1),
        bit: rows::word(pages, rows::PAGE_WORDS, row, 2),
        size: rows::word(pages, rows::PAGE_WORDS, row, 3),
        offset: rows::word(pages, rows::PAGE_WORDS, row, 4),
    }
}

// A page whose elements have so many bits. Its size is asked for only where its elements fit their place; a page of which nothing is refused
// waits for no number of a refusal.
fn page_number(page: PageWords, bits: u16, file: u64) -> u16
    ensures { result ≡ (page_piece file bits page).number }
{
    let elements = page.elements;
    let bit = page.bit;
    if elements < verdicts::BITS_30 {
        if bit < 2 {
            let size = page.size;
            let due = pages::size_of(elements as u32, bits);
            let stored = verdicts::narrow(size, verdicts::BITS_31, locator::stored_as(due, size));
            if stored != 0 {
                return stored;
            }
            let behind = numbers::trailer_size(bit == 1) as u64;
            return locator::in_file(file, size, behind, page.offset);
        }
        return 25;
    }
    25
}

// The pages of a table, one after the other.
fn pages_check(pages: &[u64], bits: u16, file: u64) -> ColumnSum
    requires { length pages.now / 5 ≤ most_pages }
    ensures { Summed (pieces (page_item file bits) [] (page_rows_in pages.now)).number (page_rows_in pages.now) result }
{
    let n = pages.len() / rows::PAGE_WORDS;
    let mut elements: u64 = 0;
    for i in 0..n {
        let page = page_words(pages, i);
        let more = page.elements;
        let number = page_number(page, bits, file);
        if number != 0 {
            return ColumnSum { number, elements };
        }
        elements += more;
    }
    ColumnSum {
        number: 0,
        elements,
    }
}

// The list of the pages of a column, which a table has, after so many pages of earlier columns.
pub fn column_check(pages: &[u64], bits: u16, file: u64, before: usize) -> ColumnSum
    ensures { Summed (list_piece (running_total before) (page_item file bits) (page_rows_in pages.now)).number (page_rows_in pages.now) result }
{
    let count = pages::running_total(before, pages.len() / rows::PAGE_WORDS);
    if count != 0 {
        return ColumnSum {
            number: count,
            elements: 0,
        };
    }
    pages_check(pages, bits, file)
}
