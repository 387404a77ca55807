// The page lists of a case, reported one after another.
use crate::{PARTS, RESULT};
use std::io;

// The other numbers of such a case, by their places: how many words the report has, how many lists were accepted and refused before, and how many
// bytes the rows of the parts have.
const REPORT: usize = 2;

const ACCEPTED: usize = 3;

const REFUSED: usize = 4;

const ROW_BYTES: usize = 5;

// A row has a part's place and its bytes; of a list also the entries of its cluster, and the length of its file.
const ROW_WORDS: usize = 4;

// The parts: the words that the report has at first, again from the first of them where it has more; the numbers of the lists in their turn, a
// word for each call; the header; and from there on the lists.
const FIRST_WORDS: u64 = 0;

const TURNS: u64 = 1;

const HEADER: u64 = 2;

// How many lists were accepted and refused.
#[derive(Clone, Copy)]
struct Lists {
    accepted: u64,
    refused: u64,
}

pub fn report(rt: &impl Print, case: [u64; 6], bytes: &[u8]) -> io::Result<()> {
    let mut table = [0u64; 64];
    cases::take_words(
        reader::text_of(bytes, PARTS, case[ROW_BYTES] as usize),
        &mut table,
    );
    let mut lent = [0u64; 4104];
    cases::take_words(part(bytes, bytes, &table, FIRST_WORDS), &mut lent);
    let words = cases::fit(case[REPORT], &lent);
    let mut all = [0u64; 1032];
    cases::take_words(part(bytes, bytes, &table, TURNS), &mut all);
    let turns = cases::fit(rows::word(&table, ROW_WORDS, TURNS, 1) / 8, &all);
    let zeros = cases::filled(0);
    report_all(
        rt,
        case,
        bytes,
        &zeros,
        &table,
        &all[..turns],
        &mut lent[..words],
    )
}

// Each list in its turn, with the counts that the call before it hands over.
fn report_all<'a>(
    rt: &impl Print,
    case: [u64; 6],
    bytes: &'a [u8],
    zeros: &'a [u8],
    table: &[u64],
    turns: &[u64],
    words: &mut [u64],
) -> io::Result<()> {
    let mut so_far = counts_of(case);
    for number in turns {
        so_far = report_list(rt, case, bytes, zeros, table, *number, so_far, words)?;
    }
    Ok(())
}

// The counts that the first call gets.
fn counts_of(case: [u64; 6]) -> Lists {
    Lists {
        accepted: case[ACCEPTED],
        refused: case[REFUSED],
    }
}

// One list, with a result of nines. Where the result is too short the counts stay.
fn report_list<'a>(
    rt: &impl Print,
    case: [u64; 6],
    bytes: &'a [u8],
    zeros: &'a [u8],
    table: &[u64],
    number: u64,
    so_far: Lists,
    words: &mut [u64],
) -> io::Result<Lists> {
    let mut nines = [9u64; 4];
    let result_words = cases::fit(case[RESULT], &nines);
    let result = &mut nines[..result_words];
    let code = exports::rnt_report_page_list(
        part(bytes, zeros, table, HEADER),
        part(bytes, zeros, table, number),
        rows::word(table, ROW_WORDS, number, 2),
        rows::word(table, ROW_WORDS, number, 3),
        so_far.accepted,
        so_far.refused,
        words,
        result,
    );
    cases::show_answer(rt, code, &[], 0)?;
    cases::show_words(rt, result)?;
    cases::show_words(rt, words)?;
    if result_words < 2 {
        return Ok(so_far);
    }
    Ok(Lists {
        accepted: rows::word(result, 2, 0, 0),
        refused: rows::word(result, 2, 0, 1),
    })
}

// A part of a case. One that has more bytes than the whole case is zeros.
fn part<'a>(bytes: &'a [u8], zeros: &'a [u8], table: &[u64], number: u64) -> &'a [u8] {
    let place = rows::word(table, ROW_WORDS, number, 0) as usize;
    let length = rows::word(table, ROW_WORDS, number, 1) as usize;
    if bytes.len() < length {
        return reader::text_of(zeros, 0, length);
    }
    reader::text_of(bytes, place, length)
}
