// The lists, taken into the report one after the other.
use crate::{FIRST_LIST, LIST_ARGUMENTS, input, table};
use figure_rules::FIGURE_WORDS;
use std::io;
use std::rt::Files;

// As many as a report takes.
pub const MOST_LISTS: usize = figure_rules::MOST_LISTS as usize;

// The words of a report that has a row for each column that there can be.
const REPORT_WORDS: usize = FIGURE_WORDS * rows::MOST_COLUMNS;

// Takes so many lists, and prints the table. Where an argument is no good, nothing is printed.
pub fn report<R: Files + Print + Eprint>(
    rt: &R,
    arguments: &[String],
    count: usize,
) -> io::Result<()> {
    let Some(mut file) = input::open_argument(rt, arguments, 1)? else {
        return Ok(());
    };
    // One byte more than an envelope may have, so that a longer file shows: it is refused for its length. So for a list.
    let mut bytes = cases::filled(0);
    let length = cases::read_full(&mut file, &mut bytes)?;
    let mut all = [0u64; MOST_LISTS];
    let lists = cases::fit(count as u64, &all);
    report_lists(rt, arguments, &mut bytes[..length], &mut all[..lists])
}

// The same for as many lists as there are places for answers.
fn report_lists<R: Files + Print + Eprint>(
    rt: &R,
    arguments: &[String],
    header: &mut [u8],
    codes: &mut [u64],
) -> io::Result<()> {
    let mut words = [0u64; REPORT_WORDS];
    let mut counts = [0u64; 2];
    if take_lists(rt, arguments, header, &mut words, &mut counts, codes)? {
        table::print(rt, header, &words)?;
        table::print_counts(rt, &counts)?;
        table::print_refused(rt, codes)?;
    }
    Ok(())
}

// Takes all lists, and puts the answer for each in its place. Answers whether there is one for all of them.
fn take_lists<R: Files + Eprint>(
    rt: &R,
    arguments: &[String],
    header: &[u8],
    words: &mut [u64],
    counts: &mut [u64; 2],
    codes: &mut [u64],
) -> io::Result<bool> {
    let mut first = FIRST_LIST;
    for i in 0..codes.len() {
        let Some(code) = take_list(rt, arguments, header, first, words, counts)? else {
            return Ok(false);
        };
        codes[i] = code as u64;
        first = std::num::wrapping_add_usize(first, LIST_ARGUMENTS);
    }
    Ok(true)
}

// The list that three arguments from this one on name. The counts go in and out. There is no answer where its file cannot be read or a number is none.
fn take_list<R: Files + Eprint>(
    rt: &R,
    arguments: &[String],
    header: &[u8],
    first: usize,
    words: &mut [u64],
    counts: &mut [u64; 2],
) -> io::Result<Option<u32>> {
    let entries = input::number_argument(rt, arguments, std::num::wrapping_add_usize(first, 1))?;
    let Some(entries) = entries else {
        return Ok(None);
    };
    let file_length = input::number_argument(
        rt,
        arguments,
        std::num::wrapping_add_usize(first, 2),
    )?;
    let Some(file_length) = file_length else {
        return Ok(None);
    };
    let Some(mut file) = input::open_argument(rt, arguments, first)? else {
        return Ok(None);
    };
    let mut bytes = cases::filled(0);
    let length = cases::read_full(&mut file, &mut bytes)?;
    Ok(Some(exports::rnt_report_page_list(
        header,
        &bytes[..length],
        entries,
        file_length,
        counts[0],
        counts[1],
        words,
        counts,
    )))
}
