// A header that is to be written: how long it would be, and the number of its first refusal.
#![tactic(auto)]

mod aliases;
mod chains;
mod columns;

ghost use Rattle.std.specs.Prelude.{◌≡◌, List, ℕ};
ghost use Rattle.writing.specs.Piece.{first};
ghost use Rattle.writing.specs.Rows.{header_rows};
ghost use Rattle.writing.specs.Header.{header_piece, payload_piece, chains};
ghost use Rattle.verdicts.specs.Length.{capped};

use records::HeaderTexts;
use rows::{ALIAS_WORDS, COLUMN_WORDS, FIELD_WORDS};

// What a header has besides its texts' characters and its lists' items: 8 of the envelope, 8 of the feature word, 4 of each of two
// strings and 8 of each of three lists.
const HEADS: usize = 48;

// The bytes of a column's and of an alias's record.

const COLUMN_BYTES: u16 = 16;

const ALIAS_BYTES: u16 = 12;

// How long the header of lent tables would be, whatever the strings; one above an envelope's ceiling where it would be longer than that.
pub fn header_long(texts: HeaderTexts, fields: &[u64], columns: &[u64], aliases: &[u64]) -> usize
    ensures { (strings : List ℕ) → result ≡ capped (header_piece strings texts (header_rows fields.now columns.now aliases.now)).long }
{
    let name = texts.name;
    let description = texts.description;
    let with_heads = verdicts::grown(field_check::fields_long(fields), HEADS);
    let named = verdicts::grown(with_heads, name.len);
    let described = verdicts::grown(named, description.len);
    let with_columns = verdicts::with_rows(described, columns.len() / COLUMN_WORDS, COLUMN_BYTES);
    verdicts::with_rows(with_columns, aliases.len() / ALIAS_WORDS, ALIAS_BYTES)
}

// The first refusal of a payload.
fn payload_number(
    strings: &[u8],
    texts: HeaderTexts,
    fields: &[u64],
    columns: &[u64],
    aliases: &[u64],
) -> u16
    ensures { result ≡ (payload_piece strings.now texts (header_rows fields.now columns.now aliases.now)).number }
{
    let name = verdicts::text_number(strings, texts.name);
    let description = verdicts::text_number(strings, texts.description);
    let field_list = field_check::field_list_number(strings, fields);
    let column_list = columns::column_list_number(columns, (fields.len() / FIELD_WORDS) as u64);
    let alias_list = aliases::alias_list_number(
        aliases,
        fields,
        (columns.len() / COLUMN_WORDS) as u64,
    );
    let lists = verdicts::first(field_list, verdicts::first(column_list, alias_list));
    verdicts::first(verdicts::first(name, description), lists)
}

// The first refusal of a header that is short enough: of its payload, then of its parent chains, which are followed only where nothing
// of the payload is refused.
pub fn header_number(
    strings: &[u8],
    texts: HeaderTexts,
    fields: &[u64],
    columns: &[u64],
    aliases: &[u64],
) -> u16
    ensures { result ≡ first (payload_piece strings.now texts (header_rows fields.now columns.now aliases.now)).number (chains (header_rows fields.now columns.now aliases.now).fields) }
{
    let number = payload_number(strings, texts, fields, columns, aliases);
    if number != 0 {
        return number;
    }
    chains::chains_number(fields)
}
