// The pages of all columns: a list with an item for each column, which is the list of its pages.
#![tactic(auto)]

ghost use Rattle.std.specs.Prelude.{◌≡◌, ◌≤◌};
ghost use Rattle.wire.specs.Reading.{refused};
ghost use Rattle.wire.specs.Answers.{as_step};
ghost use Rattle.rows.specs.Words.{most_columns};
ghost use Rattle.frames.specs.Frames.{list_head};
ghost use Rattle.envelope.specs.Envelope.{whole};
ghost use Rattle.column_pages.specs.ColumnPages.{per_column, payload};
ghost use Rattle.column_pages.specs.Answers.{bits_in, column_items, sums_of};

use frames::ListHead;
use rows::ColumnNumber;
use wire::{Fault, Step};

// How many pages all columns have, and the place after them, or a refusal; and how many elements the pages of each column
// have, zeros where they are refused.
#[derive(Clone, Copy)]
pub struct Sums {
    pub pages: Step<u64>,
    pub elements: [u64; rows::MOST_COLUMNS],
}

// What is left of columns that are refused.
fn no_sums(f: Fault) -> Sums
    ensures { result ≡ sums_of (refused f) }
{
    Sums {
        pages: Err(f),
        elements: [0u64; rows::MOST_COLUMNS],
    }
}

// The verdict on the columns of a list at `list`, whose head was read. `columns` has a row for each column.
fn scan_columns(
    s: &[u8],
    strict: bool,
    list: usize,
    head: ListHead,
    columns: &[u64],
    file: u64,
) -> Sums
    requires { head.count ≤ most_columns }
    ensures { result ≡ sums_of (column_items s.now strict list head columns.now file) }
{
    let count = head.count;
    let mut elements = [0u64; rows::MOST_COLUMNS];
    let mut total: usize = 0;
    let mut at = head.start;
    for i in 0..count {
        let column = ColumnNumber(i as u64);
        let row = column_rows::column_row(columns, column);
        let bits = (row.bits % 65536) as u16;
        match pages::scan_page_list(s, strict, at, column, bits, file, total) {
            Ok((tally, next)) => {
                elements[i] = tally.elements;
                total += tally.pages;
                at = next;
            }
            Err(f) => return no_sums(wire::fault_in_item(list, i, f)),
        }
    }
    Sums {
        pages: Ok((total as u64, at)),
        elements,
    }
}

// The verdict on the count of items, where there are so many columns.
fn per_column(columns: usize, n: usize) -> u16
    ensures { result ≡ per_column columns n }
{
    if n <= rows::MOST_COLUMNS {
        if n == columns {
            return 0;
        }
        return 19;
    }
    10
}

// The head of a payload's list, where there are so many columns.
pub fn column_list_head(s: &[u8], n: usize) -> Step<ListHead>
    ensures { as_step result ≡ list_head (per_column n) s.now 4 }
{
    let (head, stop) = list_frames::list_head(s, 4)?;
    list_frames::judge_count(head, 4, stop, per_column(n, head.count))
}

// The verdict on a payload, to its end, beside the first n columns of a table.
pub fn scan_payload(s: &[u8], strict: bool, columns: &[u64], n: usize, file: u64) -> Sums
    ensures { result ≡ sums_of (whole strict (payload file (bits_in columns.now n) strict) s.now 4) }
{
    match column_list_head(s, n) {
        Ok((head, stop)) => {
            let sums = scan_columns(frames::up_to(s, stop), strict, 4, head, columns, file);
            let pages = sums.pages;
            let elements = sums.elements;
            match list_frames::close_list(pages, strict, 4, head.count, stop) {
                Ok((count, past)) => {
                    match frames::close_frame(strict, past, s.len()) {
                        Ok(next) => Sums {
                            pages: Ok((count, next)),
                            elements,
                        },
                        Err(f) => no_sums(f),
                    }
                }
                Err(f) => no_sums(f),
            }
        }
        Err(f) => no_sums(f),
    }
}
