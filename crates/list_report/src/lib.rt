// What the program prints for a header that it lists.
#![tactic(auto)]

ghost use Rattle.std.specs.Prelude.{take};
ghost use Rattle.io.specs.Counts.{IsPrefixLen};
ghost use Rattle.list_report.specs.Printed.{printed, Prints};

use report::Line;

// The most bytes of a listing, as many as of a header that is read.
pub const MOST_BYTES: usize = report::MOST_BYTES;

// Writes all that is printed for what was read over the first of the lent bytes, and answers how many bytes these are: the listing of a header,
// or the line that tells why there is none.
pub fn list_header(input: &[u8], out: &mut [u8; MOST_BYTES]) -> usize
    ensures prints { Prints (printed input.now) out.old out.new result }
    ensures counts { IsPrefixLen result out.new }
{
    if MOST_BYTES < input.len() {
        return put_line(report::check_header(input), out);
    }
    match field_listing::list_fields(input, out) {
        Ok(len) => len,
        Err(number) => put_line(report::header_line(Err(number)), out),
    }
}

// Writes a line over the first of the lent bytes.
fn put_line(line: Line, out: &mut [u8; MOST_BYTES]) -> usize
    requires { IsPrefixLen line.len line.bytes }
    ensures { Prints (take line.len line.bytes) out.old out.new result }
{
    let bytes = line.bytes;
    let len = line.len;
    stores::store_bytes(&bytes[..len], 0, out)
}
