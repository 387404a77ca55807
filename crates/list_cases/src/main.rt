// Lists the header that the file of each argument has: prints its name, the answer, the result and the lent bytes as the call leaves them.
#![tactic(auto)]

use std::rt::Files;
use std::{env, io};

// A case is three numbers of eight bytes each and then the header. The numbers, by their places: how many bytes are lent, how many words of
// the result, and how many zeros the header is instead of what the case has, if any.
const ROOM: usize = 0;

const RESULT: usize = 1;

const ZEROS: usize = 2;

// Where the header starts.
const HEADER: usize = 24;

fn main(rt: HostRuntime) -> io::Result<()> {
    for name in env::args(&rt)?.skip(1) {
        run(&rt, name.as_str())?;
    }
    Ok(())
}

// The case of the file of this name.
fn run<R: Files + Print>(rt: &R, name: &str) -> io::Result<()> {
    let mut input = [0u8; cases::CASE_BYTES];
    let count = cases::read_case(rt, name, &mut input)?;
    let bytes = &input[..count];
    let mut case = [0u64; 3];
    cases::take_words(bytes, &mut case);
    if case[ZEROS] == 0 {
        let length = std::num::wrapping_sub_usize(count, HEADER);
        list(rt, case, reader::text_of(bytes, HEADER, length))?;
    } else {
        let all = cases::filled(0);
        list(rt, case, reader::text_of(&all, 0, case[ZEROS] as usize))?;
    }
    rt.println("")
}

// Lists into lent bytes that are EE, with a result of nines.
fn list(rt: &impl Print, case: [u64; 3], header: &[u8]) -> io::Result<()> {
    let mut lent = cases::filled(238);
    let room = cases::fit_bytes(case[ROOM] % 4294967296, &lent);
    let out = &mut lent[..room];
    let mut nines = [9u64; 4];
    let words = cases::fit(case[RESULT], &nines);
    let result = &mut nines[..words];
    let code = exports::rnt_list_fields(header, out, result);
    cases::show_answer(rt, code, &[], 0)?;
    cases::show_words(rt, result)?;
    cases::show_out(rt, out, cases::written(result))?;
    Ok(())
}
