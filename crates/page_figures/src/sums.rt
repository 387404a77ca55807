// Sums over the pages of columns that were accepted, one column after the other.
ghost use Rattle.std.specs.Prelude.{◌≡◌, true, [], ◌∷◌, ◌*◌, ◌≤◌, length};
ghost use Rattle.numbers.specs.Rows.{over};
ghost use Rattle.wire.specs.Reading.{accepted, rows_of};
ghost use Rattle.rows.specs.Words.{most_pages, most_columns};
ghost use Rattle.pages.specs.Pages.{page_items};
ghost use Rattle.column_pages.specs.ColumnPages.{payload};
ghost use Rattle.column_pages.specs.Answers.{bits_in, column_items};
ghost use Rattle.figure_rules.specs.Report.{figure_width, figures_of, list_figures};
ghost use Rattle.page_figures.specs.Answers.{figure_words};

use crate::Figures;
use frames::ListHead;
use rows::ColumnNumber;

fn no_figures() -> Figures
    ensures { figure_words result ≡ figures_of [] }
{
    Figures {
        pages: 0,
        elements: 0,
        sizes: 0,
        checksums: 0,
    }
}

// The figures of the pages of a list at `list`, whose head was read. They were accepted, so that none is refused here.
fn sum_pages(
    s: &[u8],
    list: usize,
    head: ListHead,
    column: ColumnNumber,
    bits: u16,
    file: u64,
) -> Figures
    requires { (accepted (page_items s.now list head file column.0 bits) ≡ true) × (head.count ≤ most_pages) }
    ensures { figure_words result ≡ figures_of (rows_of (page_items s.now list head file column.0 bits)) }
{
    let count = head.count;
    let mut elements: u64 = 0;
    let mut sizes: u64 = 0;
    let mut checksums: u64 = 0;
    let mut at = head.start;
    for i in 0..count {
        match pages::page_at(s, at, column, bits, file) {
            Ok((row, next)) => {
                elements += row.elements;
                sizes += row.size;
                checksums += cluster_rows::bit(row.checksum);
                at = next;
            }
            Err(_) => return no_figures(),
        }
    }
    Figures {
        pages: count as u64,
        elements,
        sizes,
        checksums,
    }
}

// Writes the figures of each column of a list, which was accepted, into its row. A list of pages ends where its frame does, whether or not
// it is strict.
fn sum_columns(
    figures: &mut [u64],
    s: &[u8],
    strict: bool,
    list: usize,
    head: ListHead,
    columns: &[u64],
    file: u64,
)
    requires { (accepted (column_items s.now strict list head columns.now file) ≡ true) × (figure_width * head.count ≤ length figures.old) × (head.count ≤ most_columns) }
    ensures { figures.new ≡ over (list_figures (rows_of (column_items s.now strict list head columns.now file))) figures.old }
{
    let count = head.count;
    let mut total: usize = 0;
    let mut at = head.start;
    for i in 0..count {
        let column = ColumnNumber(i as u64);
        let row = column_rows::column_row(columns, column);
        let bits = (row.bits % 65536) as u16;
        match pages::page_list_head(s, at, total) {
            Ok((pages, stop)) => {
                let f = sum_pages(frames::up_to(s, stop), at, pages, column, bits, file);
                let from = figure_rules::FIGURE_WORDS * i;
                rows::put_words(figures, from, &[f.pages, f.elements, f.sizes, f.checksums]);
                total += pages.count;
                at = stop;
            }
            Err(_) => return,
        }
    }
}

// Writes the figures of each column of a payload, which was accepted, into its row.
pub fn sum_payload(
    figures: &mut [u64],
    s: &[u8],
    strict: bool,
    columns: &[u64],
    n: usize,
    file: u64,
)
    requires { (accepted (payload file (bits_in columns.now n) strict s.now 4) ≡ true) × (figure_width * n ≤ length figures.old) }
    ensures { figures.new ≡ over (list_figures (rows_of (payload file (bits_in columns.now n) strict s.now 4))) figures.old }
{
    match column_pages::column_list_head(s, n) {
        Ok((head, stop)) => {
            let inner = frames::up_to(s, stop);
            sum_columns(figures, inner, strict, 4, head, columns, file);
        }
        Err(_) => {}
    }
}
