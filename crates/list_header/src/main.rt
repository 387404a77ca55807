// Reads a header of at most 65,536 bytes from standard input, and prints its fields as a tree, or the line that tells why there is none.
#![tactic(auto)]

use std::io;

fn main(rt: HostRuntime) -> io::Result<()> {
    // One byte more than a header may have, so that a longer input shows.
    let mut input = [0u8; list_report::MOST_BYTES + 1];
    let mut out = [0u8; list_report::MOST_BYTES];
    let count = cases::read_full(&mut rt.stdin(), &mut input)?;
    let len = list_report::list_header(&input[..count], &mut out);
    rt.write_all(&out[..len])
}
