// Lines stored into lent bytes, piece after piece. Each call answers the place after what it stored; where there is no room it stores less,
// or nothing, and its answer says nothing: whether all lines fit is found out before.
ghost use Rattle.std.specs.Prelude.{◌≡◌, ◌++◌, ◌*◌, replicate};
ghost use Rattle.decimals.specs.Decimal.{text};
ghost use Rattle.stores.specs.Stored.{Stored};
ghost use Rattle.listing.specs.Lines.{shown_byte, shown, dark_word};
ghost use Rattle.listing_lines.specs.Line.{line_bytes, lines_in};

use crate::line::{Line, line_of};
use listing::ENTRY_WORDS;

// A byte as it prints: a question mark for those that would disturb a line.
pub fn shown_byte(byte: u8) -> u8
    ensures { result ≡ shown_byte byte }
{
    if byte < 32 {
        return 63;
    }
    if byte == 127 {
        return 63;
    }
    byte
}

// Bytes as they print.
fn store_shown(bytes: &[u8], at: usize, out: &mut [u8]) -> usize
    ensures { Stored out.old at (shown bytes.now) out.new result }
{
    if numbers::has_room(out, at, bytes.len()) {
        for i in 0..bytes.len() {
            out[at + i] = shown_byte(bytes[i]);
        }
        return at + bytes.len();
    }
    at
}

// So many spaces.
pub fn store_spaces(count: usize, at: usize, out: &mut [u8]) -> usize
    ensures { Stored out.old at (replicate count 32) out.new result }
{
    if numbers::has_room(out, at, count) {
        out[at..at + count].fill(32);
        return at + count;
    }
    at
}

// Two spaces per level. The level is not doubled: it may be any number.
fn store_indent(level: u64, at: usize, out: &mut [u8]) -> usize
    ensures { Stored out.old at (replicate (2 * level) 32) out.new result }
{
    let half = store_spaces(level as usize, at, out);
    store_spaces(level as usize, half, out)
}

// The dark word where it applies, and the line's end.
fn store_end(dark: bool, at: usize, out: &mut [u8]) -> usize
    ensures { Stored out.old at (shown (dark_word dark) ++ text "\n") out.new result }
{
    if dark {
        return stores::store_bytes(b" dark\n", at, out);
    }
    stores::store_bytes(b"\n", at, out)
}

// A line.
fn store_line(envelope: &[u8], line: Line, at: usize, out: &mut [u8]) -> usize
    ensures { Stored out.old at (line_bytes envelope.now line) out.new result }
{
    let name = line.name;
    let type_name = line.type_name;
    let digits = decimals::digits_of(line.field);
    let bytes = digits.bytes;
    let len = digits.len;
    let indented = store_indent(line.level, at, out);
    let numbered = store_shown(&bytes[..len], indented, out);
    let before_name = store_shown(b" ", numbered, out);
    let named = store_shown(
        reader::text_of(envelope, name.place, name.len),
        before_name,
        out,
    );
    let before_type = store_shown(b" ", named, out);
    let typed = store_shown(
        reader::text_of(envelope, type_name.place, type_name.len),
        before_type,
        out,
    );
    store_end(line.dark, typed, out)
}

// All lines, from the first lent byte on.
pub fn store_lines(
    envelope: &[u8],
    fields: &[u64],
    marks: &[u8],
    entries: &[u64],
    out: &mut [u8],
) -> usize
    ensures { Stored out.old 0 (lines_in envelope.now fields.now marks.now entries.now) out.new result }
{
    let mut at = 0;
    for i in 0..entries.len() / ENTRY_WORDS {
        at = store_line(envelope, line_of(fields, marks, entries, i), at, out);
    }
    at
}
