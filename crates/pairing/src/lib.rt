// The page list of a cluster's row: read only where its checksum is the row's, or the row has none.
#![tactic(auto)]

ghost use Rattle.std.specs.Prelude.{ℕ, List, ◌≡◌};
ghost use Rattle.envelope.specs.Envelope.{opened};
ghost use Rattle.page_list.specs.Tables.{Answered};
ghost use Rattle.pairing.specs.Paired.{paired_beside};
ghost use Rattle.pairing.specs.Stale.{stale, stale_fault, stale_beside};

use header::Refusal;
use page_list::PageListAnswer;

// The page list ends with a checksum, the row has one, and they differ.
fn is_stale(page_list: &[u8], checksum: u64) -> bool
    ensures { result ≡ stale checksum page_list.now }
{
    let length = page_list.len();
    if length < 8 {
        return false;
    }
    if checksum == rows::NO_CHECKSUM {
        return false;
    }
    numbers::little_4(page_list, length - 4) != checksum
}

// What a stale page list is refused with: its own 1 to 3, else 26.
fn stale_number(page_list: &[u8]) -> u16
    ensures { result ≡ (stale_fault (opened 1 page_list.now)).number }
{
    match envelope::open_envelope(page_list, page_list::SUPPORTED) {
        Ok(_) => 26,
        Err(f) => {
            if f.number <= 3 {
                return f.number;
            }
            26
        }
    }
}

// The answer to a stale page list: the header's refusal, or the page list's. No table is asked for.
fn refuse_stale(header: &[u8], page_list: &[u8]) -> PageListAnswer
    ensures { (table : List ℕ) → Answered (stale_beside header.now page_list.now) table table result }
{
    let schema = header_schema::read_schema(header);
    let verdict = schema.verdict;
    match verdict {
        Ok(()) => Err(Refusal {
            envelope: 3,
            number: stale_number(page_list),
        }),
        Err(f) => Err(Refusal {
            envelope: 1,
            number: f.number,
        }),
    }
}

// Reads the page list of a cluster whose row has this entry count and this checksum (or NO_CHECKSUM) into the lent table (5 words to a
// page), and answers. The header and the list are read whole only once: of a list that is not stale the reader says the rest.
pub fn read_paired_page_list(
    header: &[u8],
    page_list: &[u8],
    entries: u64,
    checksum: u64,
    file_length: u64,
    pages: &mut [u64],
) -> PageListAnswer
    ensures { Answered (paired_beside header.now page_list.now entries checksum file_length) pages.old pages.new result }
{
    if is_stale(page_list, checksum) {
        return refuse_stale(header, page_list);
    }
    page_list::read_page_list(header, page_list, entries, file_length, pages)
}
