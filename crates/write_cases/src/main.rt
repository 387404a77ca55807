// Writes the envelope that the file of each argument asks for: prints its name, the answer, the result and the lent bytes as the call leaves
// them, and what the envelope's reader makes of what was written.
#![tactic(auto)]

mod calls;

use std::rt::Files;
use std::{env, io};

fn main(rt: HostRuntime) -> io::Result<()> {
    for name in env::args(&rt)?.skip(1) {
        run(&rt, name.as_str())?;
    }
    Ok(())
}

// The case of the file of this name.
fn run<R: Files + Print>(rt: &R, name: &str) -> io::Result<()> {
    let mut input = [0u8; cases::CASE_BYTES];
    let count = cases::read_case(rt, name, &mut input)?;
    calls::call(rt, &input[..count])?;
    rt.println("")
}
