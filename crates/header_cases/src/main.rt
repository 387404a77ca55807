// Prints, for each file that an argument names, its name and what is printed for a header with its bytes.
#![tactic(auto)]

use std::rt::Files;
use std::{env, io};

fn main(rt: HostRuntime) -> io::Result<()> {
    for name in env::args(&rt)?.skip(1) {
        show(&rt, name.as_str())?;
    }
    Ok(())
}

// The file of this name.
fn show<R: Files + Print>(rt: &R, name: &str) -> io::Result<()> {
    // One byte more than a header may have, so that a longer file shows.
    let mut input = [0u8; report::MOST_BYTES + 1];
    let count = cases::read_case(rt, name, &mut input)?;
    let line = report::check_header(&input[..count]);
    let bytes = line.bytes;
    let len = line.len;
    print!(rt; " ")?;
    rt.write_all(&bytes[..len])
}
