// Runs the case that the file of each argument has: page lists that are reported in turn, or a Bit page whose true elements are counted. Prints its
// name and, of each call, the answer, the result and the report as the call leaves them.
#![tactic(auto)]

mod lists;

use std::rt::Files;
use std::{env, io};

// A case is six numbers of eight bytes each, and behind them a page, or the parts that `lists` names. The first two numbers, by their places: 1 where
// a page is counted, and how many words of the result are lent. Of a page there are two more: how many elements it has, and what is handed
// over for whether a checksum follows.
const CALLED: usize = 0;

const RESULT: usize = 1;

const ELEMENTS: usize = 2;

const CHECKSUM: usize = 3;

// Where the page starts, or the rows of the parts.
const PARTS: usize = 48;

// A case has no more bytes than this.
const CASE_BYTES: usize = 65536;

fn main(rt: HostRuntime) -> io::Result<()> {
    for name in env::args(&rt)?.skip(1) {
        run(&rt, name.as_str())?;
    }
    Ok(())
}

// The case of the file of this name.
fn run<R: Files + Print>(rt: &R, name: &str) -> io::Result<()> {
    let mut input = [0u8; CASE_BYTES];
    let count = cases::read_case(rt, name, &mut input)?;
    let bytes = &input[..count];
    let mut case = [0u64; 6];
    cases::take_words(bytes, &mut case);
    if case[CALLED] == 1 {
        let length = std::num::wrapping_sub_usize(count, PARTS);
        count_true(rt, case, reader::text_of(bytes, PARTS, length))?;
    } else {
        lists::report(rt, case, bytes)?;
    }
    rt.println("")
}

// Counts with a result of nines.
fn count_true(rt: &impl Print, case: [u64; 6], page: &[u8]) -> io::Result<()> {
    let mut nines = [9u64; 4];
    let words = cases::fit(case[RESULT], &nines);
    let result = &mut nines[..words];
    let checksum = (case[CHECKSUM] % 4294967296) as u32;
    let code = exports::rnt_count_true(case[ELEMENTS], checksum, page, result);
    cases::show_answer(rt, code, &[], 0)?;
    cases::show_words(rt, result)?;
    Ok(())
}
