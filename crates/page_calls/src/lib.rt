// The calls on pages, with numbers and lent slices alone: what each answers is one number and, where a page is encoded or a column decoded, a word
// of a lent result.
#![tactic(auto)]

ghost use Rattle.std.specs.Prelude.{◌≡◌, length};
ghost use Rattle.outcome.specs.Outcome.{code_of};
ghost use Rattle.numbers.specs.Rows.{put};
ghost use Rattle.page_rules.specs.Page.{asks, decode_outcome, decoded};
ghost use Rattle.column_rules.specs.Column.{outcome_of};
ghost use Rattle.page_calls.specs.Calls.{EncodeCall, ColumnCall};

use answers::RESULT_TOO_SHORT;
use column_rules::{ColumnAnswer, RefusedPage};

// A column type has two bytes. Any number above is unknown, which is refused before all else: 23, in envelope 4.
const LARGEST_TYPE: u32 = 65535;

const UNKNOWN_TYPE: u32 = 4 * 256 + 23;

// No count is handed over: it is that of the elements asked for.
pub fn decode_page(
    column_type: u32,
    elements: u64,
    checksum: u32,
    page: &[u8],
    words: &mut [u64],
    start: u64,
) -> u32
    ensures answers { result ≡ code_of (decode_outcome column_type elements (asks checksum) page.now (length words.old) start) }
    ensures leaves { words.new ≡ decoded column_type elements (asks checksum) page.now words.old start }
{
    if LARGEST_TYPE < column_type {
        return UNKNOWN_TYPE;
    }
    let answer = page_decoding::decode_page(
        column_type as u16,
        elements as usize,
        checksum != 0,
        page,
        words,
        start as usize,
    );
    answers::tell_page(answer, &mut [0; 0])
}

pub fn encode_page(
    column_type: u32,
    elements: u64,
    checksum: u32,
    words: &[u64],
    start: u64,
    page: &mut [u8],
    res: &mut [u64],
) -> u32
    ensures { EncodeCall column_type elements checksum words.now start page.old page.new res.old res.new result }
{
    if res.len() < 1 {
        return RESULT_TOO_SHORT;
    }
    if LARGEST_TYPE < column_type {
        res[0] = 0;
        return UNKNOWN_TYPE;
    }
    let answer = page_encoding::encode_page(
        column_type as u16,
        elements as usize,
        checksum != 0,
        words,
        start as usize,
        page,
    );
    answers::tell_page(answer, res)
}

// The index of the refused page, else the number of pages, is handed over whatever the answer. A type above 16 bits is unknown, as the largest of
// 16 bits is: where there is a page, it is refused for that.
pub fn decode_column(
    column_type: u32,
    pages: &[u64],
    file: &[u8],
    words: &mut [u64],
    res: &mut [u64],
) -> u32
    ensures { ColumnCall column_type pages.now file.now words.old words.new res.old res.new result }
{
    if res.len() < 1 {
        return RESULT_TOO_SHORT;
    }
    let narrow = if LARGEST_TYPE < column_type {
        LARGEST_TYPE
    } else {
        column_type
    };
    let answer = column_decoding::decode_column(narrow as u16, pages, file, words);
    tell_column(answer, res)
}

fn tell_column(answer: ColumnAnswer, res: &mut [u64]) -> u32
    ensures answers { result ≡ code_of (outcome_of answer) }
    ensures leaves { res.new ≡ put res.old 0 (outcome_of answer).counts }
{
    match answer {
        Ok(pages) => {
            rows::put_words(res, 0, &[pages as u64]);
            0
        }
        Err(RefusedPage { number, page }) => {
            rows::put_words(res, 0, &[page as u64]);
            1024 + number as u32
        }
    }
}
