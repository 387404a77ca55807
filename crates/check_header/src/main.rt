// Reads a header of at most 65,536 bytes from standard input, and prints what the reader answers.
#![tactic(auto)]

use std::io;

fn main(rt: HostRuntime) -> io::Result<()> {
    // One byte more than a header may have, so that a longer input shows.
    let mut input = [0u8; report::MOST_BYTES + 1];
    let count = cases::read_full(&mut rt.stdin(), &mut input)?;
    let line = report::check_header(&input[..count]);
    let bytes = line.bytes;
    let len = line.len;
    rt.write_all(&bytes[..len])
}
