// A report over page lists: the figures of one list more.
#![tactic(auto)]

mod sums;

ghost use Rattle.std.specs.Prelude.{◌≡◌, ◌+◌, ◌*◌, ◌<◌, ltb, length};
ghost use Rattle.page_list.specs.Tables.{page_list_beside};
ghost use Rattle.figure_rules.specs.Report.{outcome_of, figure_width, placed, most_lists, reported};

use figure_rules::{FIGURE_WORDS, ListCounts, MOST_LISTS, RefusedReport, ReportAnswer};
use header::Refusal;

// The figures of as many columns as a header may have.
const MOST_FIGURES: usize = FIGURE_WORDS * rows::MOST_COLUMNS;

// Adds the figures of a page list to a report (4 words to a column: pages, elements, stored sizes, pages with a checksum), and answers with
// the lists accepted and refused so far. A report starts at zeros, and so do the counts.
pub fn report_page_list(
    header: &[u8],
    page_list: &[u8],
    entries: u64,
    file_length: u64,
    counts: ListCounts,
    report: &mut [u64],
) -> ReportAnswer
    ensures answers { result ≡ (reported (page_list_beside header.now page_list.now entries file_length) counts report.old).answer }
    ensures reports { outcome_of result ≡ outcome_of (reported (page_list_beside header.now page_list.now entries file_length) counts report.old).answer }
    ensures leaves { report.new ≡ (reported (page_list_beside header.now page_list.now entries file_length) counts report.old).words }
{
    if !takes_more(counts) {
        return Err(RefusedReport {
            envelope: 3,
            number: 10,
            lists: counts,
        });
    }
    let mut figures = [0u64; MOST_FIGURES];
    match page_figures::page_figures(header, page_list, entries, file_length, &mut figures) {
        Ok(columns) => {
            let words = FIGURE_WORDS * columns;
            place(columns, &figures[..words], counts, report)
        }
        Err(Refusal { envelope, number }) => {
            let one_refused = ListCounts {
                accepted: counts.accepted,
                refused: counts.refused + 1,
            };
            Err(RefusedReport {
                envelope,
                number,
                lists: one_refused,
            })
        }
    }
}

// Whether a report that has taken so many lists takes one more.
fn takes_more(counts: ListCounts) -> bool
    ensures { result ≡ ltb (counts.accepted + counts.refused) most_lists }
{
    if counts.accepted < MOST_LISTS {
        return counts.refused < MOST_LISTS - counts.accepted;
    }
    false
}

// Adds the figures of so many columns to a report, where it has a row for each and no figure passes 64 bits.
fn place(columns: usize, figures: &[u64], counts: ListCounts, report: &mut [u64]) -> ReportAnswer
    requires { (length figures.now ≡ figure_width * columns) × (counts.accepted < most_lists) }
    ensures answers { result ≡ (placed columns figures.now counts report.old).answer }
    ensures leaves { report.new ≡ (placed columns figures.now counts report.old).words }
{
    if report.len() / FIGURE_WORDS < columns {
        return Err(RefusedReport {
            envelope: 3,
            number: 20,
            lists: counts,
        });
    }
    if !sums::all_fit(figures, report) {
        return Err(RefusedReport {
            envelope: 3,
            number: 10,
            lists: counts,
        });
    }
    sums::add_all(figures, report);
    let one_accepted = ListCounts {
        accepted: counts.accepted + 1,
        refused: counts.refused,
    };
    Ok(one_accepted)
}
