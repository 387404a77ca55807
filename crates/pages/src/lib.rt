// Pages, and the list of the pages of one column.
#![tactic(auto)]

ghost use Rattle.std.specs.Prelude.{◌≡◌, ◌≤◌};
ghost use Rattle.wire.specs.Reading.{mapped, in_item, tested};
ghost use Rattle.wire.specs.Answers.{as_step};
ghost use Rattle.frames.specs.Frames.{closed_by, list_head};
ghost use Rattle.numbers.specs.Numbers.{bytes_for};
ghost use Rattle.pages.specs.Pages.{page_word, page, page_items, running_total, pages};
ghost use Rattle.rows.specs.Words.{most_pages};
ghost use Rattle.pages.specs.Answers.{FewElements, tally_of};

use frames::ListHead;
use rows::{ColumnNumber, PageRow};
use wire::Step;

// How many pages a column has, and how many elements they have in all.
#[derive(Clone, Copy)]
pub struct Tally {
    pub pages: usize,
    pub elements: u64,
}

// The verdict on a page's first word: bit 31 is not set.
fn page_word(word: u64) -> u16
    ensures { result ≡ page_word word }
{
    if word < 2147483648 {
        return 0;
    }
    12
}

// The bytes that hold so many elements of so many bits.
pub fn size_of(elements: u32, bits: u16) -> u64
    ensures { result ≡ bytes_for elements bits }
{
    (elements as u64 * bits as u64 + 7) / 8
}

fn page_word_at(s: &[u8], at: usize) -> Step<u64>
    ensures { as_step result ≡ tested 4 page_word s.now at }
{
    let (word, next) = wire::number_4(s, at)?;
    wire::judge(word, at, next, page_word(word))
}

// A page of a column, whose elements have so many bits.
pub fn page_at(s: &[u8], at: usize, column: ColumnNumber, bits: u16, file: u64) -> Step<PageRow>
    ensures result_value { as_step result ≡ page file column.0 bits s.now at }
    ensures few_elements { FewElements result }
{
    let (word, locator_place) = page_word_at(s, at)?;
    let elements = word % 1073741824;
    let checksum = word / 1073741824 == 1;
    let size = size_of(elements as u32, bits);
    let (range, next) = locator::locator_at(s, locator_place, file, size, checksum)?;
    Ok((
        PageRow {
            column,
            elements,
            checksum,
            size: range.size,
            offset: range.offset,
        },
        next,
    ))
}

// The verdict on the pages of a list at `list`, whose head was read.
fn scan_pages(
    s: &[u8],
    list: usize,
    head: ListHead,
    column: ColumnNumber,
    bits: u16,
    file: u64,
) -> Step<Tally>
    requires { head.count ≤ most_pages }
    ensures { as_step result ≡ mapped tally_of (page_items s.now list head file column.0 bits) }
{
    let count = head.count;
    let mut elements: u64 = 0;
    let mut at = head.start;
    for i in 0..count {
        match page_at(s, at, column, bits, file) {
            Ok((row, next)) => {
                elements += row.elements;
                at = next;
            }
            Err(f) => return Err(wire::fault_in_item(list, i, f)),
        }
    }
    Ok((
        Tally {
            pages: count,
            elements,
        },
        at,
    ))
}

// The verdict on the count of pages of a column, after so many pages of earlier columns.
pub fn running_total(total: usize, n: usize) -> u16
    ensures { result ≡ running_total total n }
{
    if total <= rows::MOST_PAGES {
        if n <= rows::MOST_PAGES - total {
            return 0;
        }
        return 10;
    }
    10
}

// The head of the list of a column's pages, after so many pages of earlier columns.
pub fn page_list_head(s: &[u8], at: usize, total: usize) -> Step<ListHead>
    ensures { as_step result ≡ list_head (running_total total) s.now at }
{
    let (head, stop) = list_frames::list_head(s, at)?;
    let verdict = running_total(total, head.count);
    list_frames::judge_count(head, at, stop, verdict)
}

// The verdict on the list of a column's pages, after so many pages of earlier columns.
pub fn scan_page_list(
    s: &[u8],
    strict: bool,
    at: usize,
    column: ColumnNumber,
    bits: u16,
    file: u64,
    total: usize,
) -> Step<Tally>
    ensures { as_step result ≡ mapped tally_of (pages strict file column.0 bits total s.now at) }
{
    let (head, stop) = page_list_head(s, at, total)?;
    let scanned = scan_pages(frames::up_to(s, stop), at, head, column, bits, file);
    list_frames::close_list(scanned, strict, at, head.count, stop)
}
