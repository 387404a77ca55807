// The calls that write envelopes, with numbers and lent slices alone: what each answers is one number, and how many bytes were written in a lent result.
#![tactic(auto)]

ghost use Rattle.std.specs.Prelude.{◌≡◌};
ghost use Rattle.numbers.specs.Rows.{put};
ghost use Rattle.outcome.specs.Outcome.{code_of};
ghost use Rattle.writing.specs.Answers.{outcome_of, header_to_write, footer_to_write, page_list_to_write};
ghost use Rattle.write_calls.specs.Calls.{WriteCall, texts_at};

use answers::RESULT_TOO_SHORT;
use header::Refusal;
use records::HeaderTexts;
use rows::Text;
use writing::WriteAnswer;

pub fn write_header(
    strings: &[u8],
    name_place: u64,
    name_length: u64,
    description_place: u64,
    description_length: u64,
    fields: &[u64],
    columns: &[u64],
    aliases: &[u64],
    out: &mut [u8],
    res: &mut [u64],
) -> u32
    ensures { WriteCall 1 (header_to_write strings.now (texts_at name_place name_length description_place description_length) fields.now columns.now aliases.now) out.old out.new res.old res.new result }
{
    if res.len() < 1 {
        return RESULT_TOO_SHORT;
    }
    let name = Text {
        place: name_place as usize,
        len: name_length as usize,
    };
    let description = Text {
        place: description_place as usize,
        len: description_length as usize,
    };
    let texts = HeaderTexts { name, description };
    let answer = header_writer::write_header(strings, texts, fields, columns, aliases, out);
    tell_written(answer, res)
}

pub fn write_footer(
    header: &[u8],
    file_length: u64,
    clusters: &[u64],
    metadata: &[u64],
    out: &mut [u8],
    res: &mut [u64],
) -> u32
    ensures { WriteCall 2 (footer_to_write header.now file_length clusters.now metadata.now) out.old out.new res.old res.new result }
{
    if res.len() < 1 {
        return RESULT_TOO_SHORT;
    }
    let answer = footer_writer::write_footer(header, file_length, clusters, metadata, out);
    tell_written(answer, res)
}

pub fn write_page_list(
    header: &[u8],
    entries: u64,
    file_length: u64,
    pages: &[u64],
    out: &mut [u8],
    res: &mut [u64],
) -> u32
    ensures { WriteCall 3 (page_list_to_write header.now entries file_length pages.now) out.old out.new res.old res.new result }
{
    if res.len() < 1 {
        return RESULT_TOO_SHORT;
    }
    let answer = page_list_writer::write_page_list(header, entries, file_length, pages, out);
    tell_written(answer, res)
}

// How many bytes were written: none where the tables are refused.
fn tell_written(answer: WriteAnswer, res: &mut [u64]) -> u32
    ensures answers { result ≡ code_of (outcome_of answer) }
    ensures leaves { res.new ≡ put res.old 0 (outcome_of answer).counts }
{
    match answer {
        Ok(long) => {
            rows::put_words(res, 0, &[long as u64]);
            0
        }
        Err(Refusal { envelope, number }) => {
            rows::put_words(res, 0, &[0; 1]);
            256 * (envelope as u32) + number as u32
        }
    }
}
