// Runs the case that each file named by an argument holds: prints its name, the answer, and the lent memory as the call leaves it.
#![tactic(auto)]

mod calls;

use std::rt::Files;
use std::{env, io};

// A case is ten numbers of eight bytes each, of which `calls` names most, and two parts behind them: envelopes or a page, a header and a
// file, or words and a plane. How many bytes the first part has; the second has the rest.
const FIRST_PART: usize = 7;

// Which part, 1 or 2, is zeros instead, 0 for neither; and how many zeros.
const ZEROS_FOR: usize = 8;

const ZEROS: usize = 9;

// Where the parts start.
const PARTS: usize = 80;

// A case has no more bytes than this.
const CASE_BYTES: usize = 65536;

fn main(rt: HostRuntime) -> io::Result<()> {
    for name in env::args(&rt)?.skip(1) {
        run(&rt, name.as_str())?;
    }
    Ok(())
}

// The case of the file of this name.
fn run<R: Files + Print>(rt: &R, name: &str) -> io::Result<()> {
    let mut input = [0u8; CASE_BYTES];
    let count = cases::read_case(rt, name, &mut input)?;
    let bytes = &input[..count];
    let all = cases::filled(0);
    let mut case = [0u64; 10];
    cases::take_words(bytes, &mut case);
    let stop = std::num::wrapping_add_usize(PARTS, case[FIRST_PART] as usize);
    calls::call(
        rt,
        case,
        part(case, 1, bytes, PARTS, stop, &all),
        part(case, 2, bytes, stop, bytes.len(), &all),
    )?;
    rt.println("")
}

// The bytes of part number `number`, which stand from `start` to `stop`, or the zeros for it.
fn part<'a>(
    case: [u64; 10],
    number: u64,
    bytes: &'a [u8],
    start: usize,
    stop: usize,
    zeros: &'a [u8],
) -> &'a [u8] {
    if case[ZEROS_FOR] == number {
        return reader::text_of(zeros, 0, case[ZEROS] as usize);
    }
    reader::text_of(bytes, start, std::num::wrapping_sub_usize(stop, start))
}
