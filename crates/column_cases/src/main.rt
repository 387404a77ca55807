// Decodes the column that the file of each argument has: prints its name, the answer, the result and the lent words as the call leaves them.
#![tactic(auto)]

use std::rt::Files;
use std::{env, io};

// A case is four numbers of eight bytes each, then the words of its pages, and then the part of a file that they lie in. The numbers, by
// their places: the column type, how many bytes the words of the pages have, how many words are lent, and how many of the result.
const COLUMN_TYPE: usize = 0;

const PAGE_BYTES: usize = 1;

const ROOM: usize = 2;

const RESULT: usize = 3;

// Where the words of the pages start.
const PAGES: usize = 32;

fn main(rt: HostRuntime) -> io::Result<()> {
    for name in env::args(&rt)?.skip(1) {
        run(&rt, name.as_str())?;
    }
    Ok(())
}

// The case of the file of this name.
fn run<R: Files + Print>(rt: &R, name: &str) -> io::Result<()> {
    let mut input = [0u8; cases::CASE_BYTES];
    let count = cases::read_case(rt, name, &mut input)?;
    let bytes = &input[..count];
    let mut case = [0u64; 4];
    cases::take_words(bytes, &mut case);
    let mut table = [0u64; 2048];
    cases::take_words(
        reader::text_of(bytes, PAGES, case[PAGE_BYTES] as usize),
        &mut table,
    );
    let words = cases::fit(case[PAGE_BYTES] / 8, &table);
    let start = std::num::wrapping_add_usize(PAGES, case[PAGE_BYTES] as usize);
    let length = std::num::wrapping_sub_usize(count, start);
    decode(
        rt,
        case,
        &table[..words],
        reader::text_of(bytes, start, length),
    )?;
    rt.println("")
}

// Decodes into lent words that are nines, with a result of nines.
fn decode(rt: &impl Print, case: [u64; 4], pages: &[u64], file: &[u8]) -> io::Result<()> {
    let mut lent = [9u64; 1024];
    let room = cases::fit(case[ROOM], &lent);
    let words = &mut lent[..room];
    let mut nines = [9u64; 4];
    let result_words = cases::fit(case[RESULT], &nines);
    let result = &mut nines[..result_words];
    let column_type = (case[COLUMN_TYPE] % 4294967296) as u32;
    let code = exports::rnt_decode_column(column_type, pages, file, words, result);
    cases::show_answer(rt, code, &[], 0)?;
    cases::show_words(rt, result)?;
    cases::show_words(rt, words)?;
    Ok(())
}
