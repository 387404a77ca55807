// Writes the rows of the pages of columns that were accepted, one column after the other.
ghost use Rattle.std.specs.Prelude.{◌≡◌, true, ◌*◌, ◌≤◌, length};
ghost use Rattle.numbers.specs.Rows.{flat, over};
ghost use Rattle.wire.specs.Reading.{counted, accepted, rows_of};
ghost use Rattle.wire.specs.Answers.{as_step};
ghost use Rattle.rows.specs.Words.{page_width, page_words};
ghost use Rattle.pages.specs.Pages.{page_items, pages};
ghost use Rattle.column_pages.specs.ColumnPages.{pages_of, payload};
ghost use Rattle.column_pages.specs.Answers.{bits_in, column_items};
ghost use Rattle.page_list.specs.Tables.{page_table};

use frames::ListHead;
use rows::ColumnNumber;
use wire::Step;

// Writes the rows of the pages of a list, which were accepted, into `table`, and says the same as their count.
fn fill_pages(
    table: &mut [u64],
    s: &[u8],
    list: usize,
    head: ListHead,
    column: ColumnNumber,
    bits: u16,
    file: u64,
) -> Step<u64>
    requires bits_value { accepted (page_items s.now list head file column.0 bits) ≡ true }
    requires count_in_bounds { page_width * head.count ≤ length table.old }
    ensures result_value { as_step result ≡ counted (page_items s.now list head file column.0 bits) }
    ensures table_after { table.new ≡ over (flat page_words (rows_of (page_items s.now list head file column.0 bits))) table.old }
{
    let count = head.count;
    let mut at = head.start;
    for i in 0..count {
        match pages::page_at(s, at, column, bits, file) {
            Ok((row, next)) => {
                cluster_rows::put_page(table, i, row);
                at = next;
            }
            Err(f) => return Err(wire::fault_in_item(list, i, f)),
        }
    }
    Ok((count as u64, at))
}

// Writes the rows of the list of a column's pages, which was accepted, into `table`, and says the same as its count.
fn fill_page_list(
    table: &mut [u64],
    s: &[u8],
    strict: bool,
    at: usize,
    column: ColumnNumber,
    bits: u16,
    file: u64,
    total: usize,
) -> Step<u64>
    requires at_value { accepted (pages strict file column.0 bits total s.now at) ≡ true }
    requires at_in_bounds { page_width * length (rows_of (pages strict file column.0 bits total s.now at)) ≤ length table.old }
    ensures result_value { as_step result ≡ counted (pages strict file column.0 bits total s.now at) }
    ensures table_after { table.new ≡ over (flat page_words (rows_of (pages strict file column.0 bits total s.now at))) table.old }
{
    let (head, stop) = pages::page_list_head(s, at, total)?;
    let filled = fill_pages(table, frames::up_to(s, stop), at, head, column, bits, file);
    list_frames::close_list(filled, strict, at, head.count, stop)
}

// Writes the rows of the pages of each column of a list, which was accepted, into `table`.
fn fill_columns(
    table: &mut [u64],
    s: &[u8],
    strict: bool,
    list: usize,
    head: ListHead,
    columns: &[u64],
    file: u64,
)
    requires file_value { accepted (column_items s.now strict list head columns.now file) ≡ true }
    requires file_in_bounds { page_width * pages_of (rows_of (column_items s.now strict list head columns.now file)) ≤ length table.old }
    ensures { table.new ≡ over (page_table (rows_of (column_items s.now strict list head columns.now file))) table.old }
{
    let count = head.count;
    let mut total: usize = 0;
    let mut at = head.start;
    for i in 0..count {
        let from = rows::PAGE_WORDS * total;
        let column = ColumnNumber(i as u64);
        let row = column_rows::column_row(columns, column);
        let bits = (row.bits % 65536) as u16;
        match fill_page_list(&mut table[from..], s, strict, at, column, bits, file, total) {
            Ok((n, next)) => {
                total += n as usize;
                at = next;
            }
            Err(_) => return,
        }
    }
}

// Writes the rows of a payload, which was accepted, into `table`.
pub fn fill_payload(table: &mut [u64], s: &[u8], strict: bool, columns: &[u64], n: usize, file: u64)
    requires s_value { accepted (payload file (bits_in columns.now n) strict s.now 4) ≡ true }
    requires s_in_bounds { page_width * pages_of (rows_of (payload file (bits_in columns.now n) strict s.now 4)) ≤ length table.old }
    ensures { table.new ≡ over (page_table (rows_of (payload file (bits_in columns.now n) strict s.now 4))) table.old }
{
    match column_pages::column_list_head(s, n) {
        Ok((head, stop)) => {
            fill_columns(
                table,
                frames::up_to(s, stop),
                strict,
                4,
                head,
                columns,
                file,
            );
        }
        Err(_) => {}
    }
}
