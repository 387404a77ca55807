// A whole page list, stored; each call answers the place after what it stored. None of them asks whether a number fits its place.
ghost use Rattle.std.specs.Prelude.{◌≡◌, true, List, [], ℕ, ◌≤◌};
ghost use Rattle.pages.specs.Pages.{running_total};
ghost use Rattle.page_list_check.specs.Runs.{leading, run};
ghost use Rattle.stores.specs.Stored.{Stored, InFront};
ghost use Rattle.writing.specs.Piece.{pieces, list_piece, enveloped};
ghost use Rattle.writing.specs.Rows.{page_rows_in};
ghost use Rattle.writing.specs.PageList.{page_piece, page_item, by_column, in_column_order, column_pages_item, page_list_payload_piece};

use rows::ColumnNumber;
use stores::StoreItems;
use writing::PageWords;

// How many pages of a column were stored, and the place after them.
#[derive(Clone, Copy)]
struct RunWritten {
    count: usize,
    next: usize,
}

// A page. What stands in its first word is cut off where it does not fit, so that no sum can wrap. Bit 30 is brought to its place by a division:
// where the compiler sees that the lower bytes are those of the element count alone, it makes four stores of the word in place of one.
fn write_page(page: PageWords, at: usize, out: &mut [u8]) -> usize
    ensures { (file bits : ℕ) → Stored out.old at (page_piece file bits page).bytes out.new result }
{
    let word = page.elements % 4294967296 + 4294967297 * (page.bit % 4) / 4;
    let size_place = stores::store_4(word, at, out);
    let offset_place = stores::store_4(page.size, size_place, out);
    stores::store_8(page.offset, offset_place, out)
}

// The pages of the column that stands first in a table.
fn write_pages(pages: &[u64], column: ColumnNumber, at: usize, out: &mut [u8]) -> RunWritten
    ensures count_value { result.count ≡ leading column.0 (page_rows_in pages.now) }
    ensures by_index { (file bits : ℕ) → Stored out.old at (pieces (page_item file bits) [] (run column.0 (page_rows_in pages.now))).bytes out.new result.next }
{
    let n = pages.len() / rows::PAGE_WORDS;
    let c = column.0;
    let mut next = at;
    for i in 0..n {
        let page = page_list_check::page_words(pages, i);
        if page.column != c {
            return RunWritten { count: i, next };
        }
        next = write_page(page, next, out);
    }
    RunWritten { count: n, next }
}

// The list of the pages of the column that stands first in a table. Its head is stored last.
fn write_column(pages: &[u64], column: ColumnNumber, at: usize, out: &mut [u8]) -> RunWritten
    ensures count_value { result.count ≡ leading column.0 (page_rows_in pages.now) }
    ensures by_index { (file bits before : ℕ) → Stored out.old at (list_piece (running_total before) (page_item file bits) (run column.0 (page_rows_in pages.now))).bytes out.new result.next }
{
    let items = stores::store_8(0, at, out);
    let written = write_pages(pages, column, items, out);
    let count = written.count;
    let next = written.next;
    stores::store_list_head(next - at, count, at, out);
    RunWritten { count, next }
}

// The pages of n columns, whose rows stand in the order of their columns.
fn write_columns(pages: &[u64], n: usize, at: usize, out: &mut [u8]) -> usize
    ensures lower_bound { at ≤ result }
    ensures stored { in_column_order n 0 (page_rows_in pages.now) ≡ true → (file : ℕ) (bits : List ℕ) → Stored out.old at (pieces (column_pages_item file bits) [] (by_column 0 n (page_rows_in pages.now))).bytes out.new result }
{
    let count = pages.len() / rows::PAGE_WORDS;
    let mut next = at;
    let mut first = 0;
    for i in 0..n {
        let rest = &pages[rows::PAGE_WORDS * first..rows::PAGE_WORDS * count];
        let written = write_column(rest, ColumnNumber(i as u64), next, out);
        next = written.next;
        first += written.count;
    }
    next
}

// The pages of n columns.
#[derive(Clone, Copy)]
struct PageTable<'a> {
    pages: &'a [u64],
    n: usize,
}

impl StoreItems for PageTable<'_> {
    ghost leaves = { λ t at before end after. in_column_order t.n 0 (page_rows_in t.pages.now) ≡ true → (file : ℕ) (bits : List ℕ) → Stored before at (pieces (column_pages_item file bits) [] (by_column 0 t.n (page_rows_in t.pages.now))).bytes after end };

    fn store_items(&self, at: usize, out: &mut [u8]) -> usize {
        write_columns(self.pages, self.n, at, out)
    }
}

// The payload: a list with an item for each column.
fn write_payload(pages: &[u64], n: usize, at: usize, out: &mut [u8]) -> usize
    ensures { in_column_order n 0 (page_rows_in pages.now) ≡ true → (file : ℕ) (bits : List ℕ) → Stored out.old at (page_list_payload_piece file bits (by_column 0 n (page_rows_in pages.now))).bytes out.new result }
{
    let items = PageTable { pages, n };
    stores::store_list(n, at, out, &items)
}

// The envelope, where there is room for it.
pub fn write_envelope(pages: &[u64], n: usize, out: &mut [u8])
    ensures { in_column_order n 0 (page_rows_in pages.now) ≡ true → (file : ℕ) (bits : List ℕ) → InFront (enveloped 1 1 (page_list_payload_piece file bits (by_column 0 n (page_rows_in pages.now)))) out.old out.new }
{
    let minimum = stores::store_2(1, 0, out);
    let payload = stores::store_2(1, minimum, out);
    let end = write_payload(pages, n, payload, out);
    stores::store_checksum(end, out);
}
