// The verdict on a page list that is to be written: how long it would be, and the number of its first refusal.
#![tactic(auto)]

mod columns;
mod page;

ghost use Rattle.std.specs.Prelude.{◌≡◌, ◌+◌, ◌*◌, take};
ghost use Rattle.rows.specs.Words.{most_fields};
ghost use Rattle.rows.specs.Tables.{columns_in};
ghost use Rattle.totals.specs.Totals.{totals};
ghost use Rattle.wire.specs.Reading.{unless};
ghost use Rattle.header.specs.Header.{Lists};
ghost use Rattle.page_list.specs.PageList.{totals_of};
ghost use Rattle.page_list.specs.Schema.{SchemaOf};
ghost use Rattle.column_pages.specs.ColumnPages.{bits_of};
ghost use Rattle.verdicts.specs.Length.{capped};
ghost use Rattle.writing.specs.Piece.{first};
ghost use Rattle.writing.specs.Rows.{page_rows_in};
ghost use Rattle.writing.specs.PageList.{by_column, in_column_order, page_list_payload_piece, pages_say, totals_number};

pub use page::page_words;

// How long a page list of so many columns and rows would be; 1048577 where it would be longer than an envelope may be.
pub fn page_list_long(columns: usize, rows: usize) -> usize
    ensures { result ≡ capped (16 + (columns * 8 + rows * 16)) }
{
    verdicts::with_rows(verdicts::with_rows(16, columns, 8), rows, 16)
}

// The verdict on the totals of n columns: `elements` has the elements of each.
fn totals_number(
    entries: u64,
    parents: &[u16],
    flags: &[u64],
    columns: &[u64],
    n: usize,
    elements: &[u64],
) -> u16
    ensures { result ≡ totals_number (totals entries (columns_in columns.now n) elements.now 0 (take most_fields parents.now) flags.now) }
{
    match totals::totals_of(entries, parents, flags, columns, n, elements) {
        None => 0,
        Some(_) => 19,
    }
}

// The number of a refusal that was found before the order of the rows was asked for, which comes first.
fn order_first(pages: &[u64], n: usize, number: u16) -> u16
    ensures { result ≡ unless (in_column_order n 0 (page_rows_in pages.now)) 14 number }
{
    if columns::in_order(pages, n) {
        return number;
    }
    14
}

// The first refusal of a page list that is short enough, beside a header: `parents` and `flags` have a word of each field, `columns` has a row of
// each of n columns. The order of the rows is asked for alone only where something is refused.
pub fn page_list_number(
    parents: &[u16],
    flags: &[u64],
    columns: &[u64],
    n: usize,
    entries: u64,
    file: u64,
    pages: &[u64],
) -> u16
    ensures { (l : Lists) → SchemaOf l parents.now flags.now columns.now n → result ≡ first (unless (in_column_order n 0 (page_rows_in pages.now)) 14 (page_list_payload_piece file (bits_of l.columns) (by_column 0 n (page_rows_in pages.now))).number) (totals_number (totals_of entries l (pages_say n (page_rows_in pages.now)))) }
{
    let count = verdicts::at_most(rows::MOST_COLUMNS, n);
    if count != 0 {
        return order_first(pages, n, count);
    }
    let sums = columns::columns_check(columns, n, file, pages);
    let number = sums.number;
    if number != 0 {
        return order_first(pages, n, number);
    }
    if sums.ordered {
        let elements = sums.elements;
        return totals_number(entries, parents, flags, columns, n, &elements[..n]);
    }
    14
}
