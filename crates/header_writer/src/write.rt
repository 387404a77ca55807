// A whole header, stored.
ghost use Rattle.stores.specs.Stored.{Stored, InFront};
ghost use Rattle.writing.specs.Rows.{header_rows};
ghost use Rattle.writing.specs.Header.{payload_piece, header_piece};

use header_stores::{write_alias_list, write_column_list, write_field_list, write_text};
use records::HeaderTexts;

// The payload.
fn write_payload(
    strings: &[u8],
    texts: HeaderTexts,
    fields: &[u64],
    columns: &[u64],
    aliases: &[u64],
    at: usize,
    out: &mut [u8],
) -> usize
    ensures { Stored out.old at (payload_piece strings.now texts (header_rows fields.now columns.now aliases.now)).bytes out.new result }
{
    let first = stores::store_8(0, at, out);
    let second = write_text(strings, texts.name, first, out);
    let third = write_text(strings, texts.description, second, out);
    let fourth = write_field_list(strings, fields, third, out);
    let fifth = write_column_list(columns, fourth, out);
    write_alias_list(aliases, fifth, out)
}

// The envelope, where there is room for it.
pub fn write_envelope(
    strings: &[u8],
    texts: HeaderTexts,
    fields: &[u64],
    columns: &[u64],
    aliases: &[u64],
    out: &mut [u8],
)
    ensures { InFront (header_piece strings.now texts (header_rows fields.now columns.now aliases.now)) out.old out.new }
{
    let minimum = stores::store_2(1, 0, out);
    let payload = stores::store_2(1, minimum, out);
    let end = write_payload(strings, texts, fields, columns, aliases, payload, out);
    stores::store_checksum(end, out);
}
