// The rows of each column: that they stand in the order of their columns, and the pages of one column after the other.
ghost use Rattle.std.specs.Prelude.{◌≡◌, true, [], ◌+◌, ◌/◌, ◌≤◌, length, drop};
ghost use Rattle.rows.specs.Words.{most_columns};
ghost use Rattle.column_pages.specs.Answers.{bits_in};
ghost use Rattle.writing.specs.Piece.{pieces};
ghost use Rattle.writing.specs.Rows.{page_rows_in};
ghost use Rattle.writing.specs.PageList.{by_column, in_column_order, column_pages_item};
ghost use Rattle.page_list_check.specs.Runs.{leading};
ghost use Rattle.page_list_check.specs.Checks.{AllSummed};

use rows::ColumnNumber;

// The first refusal of the pages of each column; where there is none, whether each row was met in the order of the columns, and how many
// elements each column has.
#[derive(Clone, Copy)]
pub struct ColumnSums {
    pub number: u16,
    pub ordered: bool,
    pub elements: [u64; rows::MOST_COLUMNS],
}

// The rows stand in the order of their columns, and each names one of n.
pub fn in_order(pages: &[u64], n: usize) -> bool
    ensures { result ≡ in_column_order n 0 (page_rows_in pages.now) }
{
    let count = pages.len() / rows::PAGE_WORDS;
    let columns = n as u64;
    let mut least: u64 = 0;
    for i in 0..count {
        let column = rows::word(pages, rows::PAGE_WORDS, i as u64, 0);
        if column < least {
            return false;
        }
        if columns <= column {
            return false;
        }
        least = column;
    }
    true
}

// Where the rows of a column end that stand from row `first` on.
fn run_end(pages: &[u64], column: ColumnNumber, first: usize) -> usize
    requires { first ≤ length pages.now / 5 }
    ensures { result ≡ first + leading column.0 (drop first (page_rows_in pages.now)) }
{
    let count = pages.len() / rows::PAGE_WORDS;
    let c = column.0;
    for i in first..count {
        if rows::word(pages, rows::PAGE_WORDS, i as u64, 0) != c {
            return i;
        }
    }
    count
}

// The pages of n columns, where their rows stand in the order of the columns. Where none is refused, this pass tells that too: the runs of the
// columns, one after the other, have each row.
pub fn columns_check(columns: &[u64], n: usize, file: u64, pages: &[u64]) -> ColumnSums
    requires { n ≤ most_columns }
    ensures ordered_value { result.number ≡ 0 → result.ordered ≡ in_column_order n 0 (page_rows_in pages.now) }
    ensures all_summed { in_column_order n 0 (page_rows_in pages.now) ≡ true → AllSummed (pieces (column_pages_item file (bits_in columns.now n)) [] (by_column 0 n (page_rows_in pages.now))).number (by_column 0 n (page_rows_in pages.now)) result }
{
    let mut elements = [0u64; rows::MOST_COLUMNS];
    let mut first = 0;
    for i in 0..n {
        let column = ColumnNumber(i as u64);
        let end = run_end(pages, column, first);
        let row = column_rows::column_row(columns, column);
        let bits = (row.bits % 65536) as u16;
        let part = &pages[rows::PAGE_WORDS * first..rows::PAGE_WORDS * end];
        let sum = crate::page::column_check(part, bits, file, first);
        let number = sum.number;
        if number != 0 {
            return ColumnSums {
                number,
                ordered: false,
                elements,
            };
        }
        elements[i] = sum.elements;
        first = end;
    }
    ColumnSums {
        number: 0,
        ordered: first == pages.len() / rows::PAGE_WORDS,
        elements,
    }
}
