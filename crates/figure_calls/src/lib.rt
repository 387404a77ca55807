// The calls for monthly figures, with numbers and lent slices alone: what each answers is one number and the words of a lent result.
#![tactic(auto)]

ghost use Rattle.std.specs.Prelude.{◌≡◌};
ghost use Rattle.outcome.specs.Outcome.{code_of};
ghost use Rattle.numbers.specs.Rows.{put};
ghost use Rattle.page_list.specs.Tables.{page_list_beside};
ghost use Rattle.page_rules.specs.Page.{asks};
ghost use Rattle.answers.specs.Handed.{Tells};
ghost use Rattle.figure_rules.specs.Report.{outcome_of as reportOutcome};
ghost use Rattle.true_count.specs.True.{outcome_of as countOutcomeOf, count_outcome};
ghost use Rattle.figure_calls.specs.Calls.{ReportCall};

use answers::RESULT_TOO_SHORT;
use figure_rules::{ListCounts, ReportAnswer};
use true_count::CountAnswer;

// The lists accepted and refused so far are handed over whatever the answer.
pub fn report_page_list(
    header: &[u8],
    page_list: &[u8],
    entries: u64,
    file_length: u64,
    accepted: u64,
    refused: u64,
    report: &mut [u64],
    res: &mut [u64],
) -> u32
    ensures { ReportCall (page_list_beside header.now page_list.now entries file_length) accepted refused report.old report.new res.old res.new result }
{
    if res.len() < 2 {
        return RESULT_TOO_SHORT;
    }
    let counts = ListCounts { accepted, refused };
    let answer = page_list_report::report_page_list(
        header,
        page_list,
        entries,
        file_length,
        counts,
        report,
    );
    tell_report(answer, res)
}

// How many elements of a Bit page are true.
pub fn count_true(elements: u64, checksum: u32, page: &[u8], res: &mut [u64]) -> u32
    ensures { Tells 1 (count_outcome elements (asks checksum) page.now) res.old res.new result }
{
    if res.len() < 1 {
        return RESULT_TOO_SHORT;
    }
    let answer = true_count::count_true(elements as usize, checksum != 0, page);
    tell_count(answer, res)
}

fn tell_report(answer: ReportAnswer, res: &mut [u64]) -> u32
    ensures answers { result ≡ code_of (reportOutcome answer) }
    ensures leaves { res.new ≡ put res.old 0 (reportOutcome answer).counts }
{
    match answer {
        Ok(counts) => {
            rows::put_words(res, 0, &[counts.accepted, counts.refused]);
            0
        }
        Err(why) => {
            let counts = why.lists;
            rows::put_words(res, 0, &[counts.accepted, counts.refused]);
            256 * why.envelope as u32 + why.number as u32
        }
    }
}

fn tell_count(answer: CountAnswer, res: &mut [u64]) -> u32
    ensures answers { result ≡ code_of (countOutcomeOf answer) }
    ensures leaves { res.new ≡ put res.old 0 (countOutcomeOf answer).counts }
{
    match answer {
        Ok(count) => {
            rows::put_words(res, 0, &[count]);
            0
        }
        Err(number) => {
            rows::put_words(res, 0, &[0]);
            1024 + number as u32
        }
    }
}
