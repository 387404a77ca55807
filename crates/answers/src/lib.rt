// Answers as one number, and as words in front of a lent result: all of them, or none where they have no room there.
#![tactic(auto)]

ghost use Rattle.std.specs.Prelude.{◌≡◌};
ghost use Rattle.numbers.specs.Rows.{put};
ghost use Rattle.outcome.specs.Outcome.{code_of};
ghost use Rattle.header.specs.Tables.{outcome_of as headerOutcome, texts_of};
ghost use Rattle.moves.specs.Moves.{outcome_of as movesOutcome};
ghost use Rattle.footer.specs.Tables.{outcome_of as footerOutcome};
ghost use Rattle.page_list.specs.Tables.{outcome_of as pageListOutcome};
ghost use Rattle.page_rules.specs.Page.{outcome_of as page_outcome};
ghost use Rattle.answers.specs.Results.{header_result};

use footer::{FooterAnswer, FooterCounts};
use header::{HeaderAnswer, Refusal};
use moves::MovesAnswer;
use page_list::PageListAnswer;
use page_rules::PageAnswer;

// What a call answers whose result has too few words: nothing is read, and nothing is written.
pub const RESULT_TOO_SHORT: u32 = 4294967295;

// The places and lengths of name and description, and the counts of fields, columns and aliases.
pub fn tell_header(answer: HeaderAnswer, res: &mut [u64]) -> u32
    ensures answers { result ≡ code_of (headerOutcome answer) }
    ensures leaves { res.new ≡ put res.old 0 (header_result (texts_of answer) (headerOutcome answer)) }
{
    match answer {
        Ok(tables) => {
            let texts = tables.texts;
            let name = texts.name;
            let description = texts.description;
            let words = [
                name.place as u64,
                name.len as u64,
                description.place as u64,
                description.len as u64,
                tables.fields as u64,
                tables.columns as u64,
                tables.aliases as u64,
            ];
            rows::put_words(res, 0, &words);
            0
        }
        Err(number) => {
            rows::put_words(res, 0, &[0; 7]);
            256 + number as u32
        }
    }
}

// The sum of the moves along a header's parent chains.
pub fn tell_moves(answer: MovesAnswer, res: &mut [u64]) -> u32
    ensures answers { result ≡ code_of (movesOutcome answer) }
    ensures leaves { res.new ≡ put res.old 0 (movesOutcome answer).counts }
{
    match answer {
        Ok(total) => {
            rows::put_words(res, 0, &[total]);
            0
        }
        Err(number) => {
            rows::put_words(res, 0, &[0; 1]);
            256 + number as u32
        }
    }
}

// The counts of clusters and of metadata links.
pub fn tell_footer(answer: FooterAnswer, res: &mut [u64]) -> u32
    ensures answers { result ≡ code_of (footerOutcome answer) }
    ensures leaves { res.new ≡ put res.old 0 (footerOutcome answer).counts }
{
    match answer {
        Ok(FooterCounts { clusters, metadata }) => {
            rows::put_words(res, 0, &[clusters as u64, metadata as u64]);
            0
        }
        Err(Refusal { envelope, number }) => {
            rows::put_words(res, 0, &[0; 2]);
            256 * (envelope as u32) + number as u32
        }
    }
}

// The count of pages.
pub fn tell_page_list(answer: PageListAnswer, res: &mut [u64]) -> u32
    ensures answers { result ≡ code_of (pageListOutcome answer) }
    ensures leaves { res.new ≡ put res.old 0 (pageListOutcome answer).counts }
{
    match answer {
        Ok(pages) => {
            rows::put_words(res, 0, &[pages as u64]);
            0
        }
        Err(Refusal { envelope, number }) => {
            rows::put_words(res, 0, &[0; 1]);
            256 * (envelope as u32) + number as u32
        }
    }
}

// How many elements were read, or bytes written.
pub fn tell_page(answer: PageAnswer, res: &mut [u64]) -> u32
    ensures answers { result ≡ code_of (page_outcome answer) }
    ensures leaves { res.new ≡ put res.old 0 (page_outcome answer).counts }
{
    match answer {
        Ok(count) => {
            rows::put_words(res, 0, &[count as u64]);
            0
        }
        Err(number) => {
            rows::put_words(res, 0, &[0; 1]);
            1024 + number as u32
        }
    }
}
