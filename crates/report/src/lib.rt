// What the program prints for a header, as a line of bytes.
#![tactic(auto)]

ghost use Rattle.std.specs.Prelude.{◌≡◌, [], ◌≤◌, length};
ghost use Rattle.io.specs.Counts.{IsPrefixLen};
ghost use Rattle.decimals.specs.Decimal.{decimal};
ghost use Rattle.report.specs.Line.{accepted_line, refused_line, longer_line, header_line, line_of, added};
ghost use Rattle.report.specs.Program.{printed};

use header::HeaderAnswer;

// The most bytes of a header that a program reads.
pub const MOST_BYTES: usize = 65536;

// The first `len` bytes are the line, its end included.
#[derive(Clone, Copy)]
pub struct Line {
    pub bytes: [u8; 128],
    pub len: usize,
}

// All that is printed for what was read: `1 longer than 65536` for more bytes than that, else the header's line.
pub fn check_header(input: &[u8]) -> Line
    ensures value { result ≡ line_of (printed input.now) }
    ensures prefix_len { IsPrefixLen result.len result.bytes }
{
    if MOST_BYTES < input.len() {
        return longer_line();
    }
    let mut fields = [0u64; rows::FULL_FIELDS];
    let mut columns = [0u64; rows::FULL_COLUMNS];
    let mut aliases = [0u64; rows::FULL_ALIASES];
    header_line(header_reader::read_header(input, &mut fields, &mut columns, &mut aliases))
}

// The line for the answer of the header's reader.
pub fn header_line(answer: HeaderAnswer) -> Line
    ensures { result ≡ line_of (header_line answer) }
{
    match answer {
        Ok(tables) => accepted_line(
            tables.fields as u64,
            tables.columns as u64,
            tables.aliases as u64,
        ),
        Err(number) => refused_line(number as u64),
    }
}

fn accepted_line(fields: u64, columns: u64, aliases: u64) -> Line
    ensures { result ≡ line_of (accepted_line fields columns aliases) }
{
    let counted_fields = with_number(with_text(empty(), b"1 accepted "), fields);
    let counted_columns = with_number(with_text(counted_fields, b" fields "), columns);
    let counted_aliases = with_number(with_text(counted_columns, b" columns "), aliases);
    with_text(counted_aliases, b" aliases\n")
}

fn refused_line(number: u64) -> Line
    ensures { result ≡ line_of (refused_line number) }
{
    with_text(
        with_number(with_text(empty(), b"1 refused "), number),
        b"\n",
    )
}

fn longer_line() -> Line
    ensures { result ≡ line_of longer_line }
{
    with_text(empty(), b"1 longer than 65536\n")
}

fn empty() -> Line
    ensures { result ≡ line_of [] }
{
    Line {
        bytes: [0; 128],
        len: 0,
    }
}

// The line with a number's digits after it.
fn with_number(line: Line, n: u64) -> Line
    ensures value { result ≡ added line (decimal n) }
    ensures n_len_bound { length (decimal n) ≤ 20 }
{
    let digits = decimals::digits_of(n);
    let bytes = digits.bytes;
    let len = digits.len;
    with_text(line, &bytes[..len])
}

// The line with a text after it, where there is room for it.
fn with_text(line: Line, text: &[u8]) -> Line
    ensures { result ≡ added line text.now }
{
    let start = line.len;
    let mut bytes = line.bytes;
    if 128 < start {
        return line;
    }
    if 128 - start < text.len() {
        return line;
    }
    bytes[start..start + text.len()].copy_from_slice(text);
    Line {
        bytes,
        len: start + text.len(),
    }
}
