// The figures of one page list: how many pages each column has, their elements, their stored sizes, and how many have a checksum.
#![tactic(auto)]

mod sums;

ghost use Rattle.std.specs.Prelude.{◌≡◌, true};
ghost use Rattle.wire.specs.Reading.{accepted, rows_of};
ghost use Rattle.header.specs.Beside.{read};
ghost use Rattle.column_pages.specs.Answers.{bits_in};
ghost use Rattle.page_list.specs.Tables.{page_list_beside};
ghost use Rattle.page_list.specs.Judged.{listed};
ghost use Rattle.page_figures.specs.Answers.{Answered};

use header::Refusal;
use page_list::Judged;

// How many columns there are, one row of figures to each, or a refusal.
pub type FiguresAnswer = Result<usize, Refusal>;

// The figures of a column's pages.
#[derive(Clone, Copy)]
pub struct Figures {
    pub pages: u64,
    pub elements: u64,
    pub sizes: u64,
    pub checksums: u64,
}

// Sums up a page list beside its header into the lent rows (4 words to a column), and answers.
pub fn page_figures(
    header: &[u8],
    page_list: &[u8],
    entries: u64,
    file_length: u64,
    figures: &mut [u64],
) -> FiguresAnswer
    ensures { Answered (page_list_beside header.now page_list.now entries file_length) figures.old figures.new result }
{
    let schema = header_schema::read_schema(header);
    let verdict = schema.verdict;
    match verdict {
        Ok(()) => {
            let n = schema.fields;
            let parents = schema.parents;
            let flags = schema.flags;
            let rows = schema.column_rows;
            let columns = schema.columns;
            match page_list::judge::judge(
                page_list,
                &parents[..n],
                &flags[..n],
                &rows,
                columns,
                entries,
                file_length,
            ) {
                Ok(judged) => {
                    write_figures(page_list, judged, &rows, columns, file_length, figures)
                }
                Err(f) => Err(Refusal {
                    envelope: 3,
                    number: f.number,
                }),
            }
        }
        Err(f) => Err(Refusal {
            envelope: 1,
            number: f.number,
        }),
    }
}

// Writes the figures of a page list that is accepted, where there is a row for each of its n columns.
fn write_figures(
    e: &[u8],
    judged: Judged,
    rows: &[u64],
    n: usize,
    file: u64,
    figures: &mut [u64],
) -> FiguresAnswer
    requires { accepted (listed file (bits_in rows.now n) e.now judged) ≡ true }
    ensures { Answered (read (rows_of (listed file (bits_in rows.now n) e.now judged))) figures.old figures.new result }
{
    if n <= figures.len() / figure_rules::FIGURE_WORDS {
        let s = frames::up_to(e, judged.stop);
        sums::sum_payload(figures, s, judged.strict, rows, n, file);
        return Ok(n);
    }
    Err(Refusal {
        envelope: 3,
        number: 20,
    })
}
