// Writes a page list from its table.
#![tactic(auto)]

mod write;

ghost use Rattle.header.specs.Header.{Header};
ghost use Rattle.header.specs.Beside.{read};
ghost use Rattle.page_list.specs.Schema.{SchemaOf};
ghost use Rattle.writing.specs.Rows.{page_rows_in};
ghost use Rattle.writing.specs.PageList.{page_list_piece};
ghost use Rattle.writing.specs.Answers.{Answered, page_list_to_write};

use header::Refusal;
use writing::WriteAnswer;

// Writes the page list of a lent table (5 words to a page) beside a header, over the first of the lent bytes. What is refused leaves these as
// they were.
pub fn write_page_list(
    header: &[u8],
    entries: u64,
    file_length: u64,
    pages: &[u64],
    out: &mut [u8],
) -> WriteAnswer
    ensures { Answered 3 (page_list_to_write header.now entries file_length pages.now) out.old out.new result }
{
    let schema = header_schema::read_schema(header);
    let verdict = schema.verdict;
    match verdict {
        Ok(()) => {
            let n = schema.fields;
            let parents = schema.parents;
            let flags = schema.flags;
            let columns = schema.column_rows;
            write_beside(
                &parents[..n],
                &flags[..n],
                &columns,
                schema.columns,
                entries,
                file_length,
                pages,
                out,
            )
        }
        Err(f) => Err(Refusal {
            envelope: 1,
            number: f.number,
        }),
    }
}

// The same beside a header of which `parents` and `flags` have a word of each field, and `columns` has a row of each of n columns. Room is the
// last to be tested.
fn write_beside(
    parents: &[u16],
    flags: &[u64],
    columns: &[u64],
    n: usize,
    entries: u64,
    file: u64,
    pages: &[u64],
    out: &mut [u8],
) -> WriteAnswer
    ensures { (h : Header) → SchemaOf h.lists parents.now flags.now columns.now n → Answered 3 (read (page_list_piece h entries file (page_rows_in pages.now))) out.old out.new result }
{
    let long = page_list_check::page_list_long(n, pages.len() / rows::PAGE_WORDS);
    if verdicts::CEILING < long {
        return Err(Refusal {
            envelope: 3,
            number: 1,
        });
    }
    let number = page_list_check::page_list_number(
        parents, flags, columns, n, entries, file, pages,
    );
    if number != 0 {
        return Err(Refusal {
            envelope: 3,
            number,
        });
    }
    if out.len() < long {
        return Err(Refusal {
            envelope: 3,
            number: 20,
        });
    }
    write::write_envelope(pages, n, out);
    Ok(long)
}
