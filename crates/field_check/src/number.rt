// Refusals of fields.
ghost use Rattle.std.specs.Prelude.{◌≡◌, []};
ghost use Rattle.rows.specs.Words.{field_width};
ghost use Rattle.rows.specs.Tables.{field_row};
ghost use Rattle.writing.specs.Piece.{pieces};
ghost use Rattle.writing.specs.Rows.{all_rows};
ghost use Rattle.writing.specs.Header.{field_head_piece, field_texts_piece, field_piece, field_item, field_list_piece};

use records::tested;
use rows::{FIELD_WORDS, FieldHead, FieldNumber, FieldRow, FieldTexts};
use verdicts::{BITS_16, BITS_32, RowVerdicts};

// What a field's record has before its strings, where there are `fields` fields. A repetition has a place of 64 bits.
fn head_number(head: FieldHead, fields: u64) -> u16
    ensures { result ≡ (field_head_piece fields head).number }
{
    let parent = head.parent;
    let version = verdicts::narrow(head.field_version, BITS_32, 0);
    let type_version = verdicts::narrow(head.type_version, BITS_32, 0);
    let up = verdicts::narrow(parent.0, BITS_32, tested::below(fields, parent.0));
    let role = verdicts::narrow(head.role, BITS_16, tested::listed(4, head.role));
    let flags = verdicts::narrow(head.flags, BITS_16, tested::listed(3, head.flags));
    let last = verdicts::first(up, verdicts::first(role, flags));
    verdicts::first(version, verdicts::first(type_version, last))
}

fn texts_number(strings: &[u8], texts: FieldTexts) -> u16
    ensures { result ≡ (field_texts_piece strings.now texts).number }
{
    let name = verdicts::text_number(strings, texts.name);
    let type_name = verdicts::text_number(strings, texts.type_name);
    let type_alias = verdicts::text_number(strings, texts.type_alias);
    let description = verdicts::text_number(strings, texts.description);
    let last = verdicts::first(type_alias, description);
    verdicts::first(name, verdicts::first(type_name, last))
}

fn field_number(strings: &[u8], row: FieldRow, fields: u64) -> u16
    ensures { result ≡ (field_piece strings.now fields row).number }
{
    let head = head_number(row.head, fields);
    verdicts::first(head, texts_number(strings, row.texts))
}

// The verdicts on fields, each of which may name any of `count` fields as its parent.
#[derive(Clone, Copy)]
struct FieldVerdicts<'a> {
    strings: &'a [u8],
    fields: &'a [u64],
    count: u64,
}

impl RowVerdicts for FieldVerdicts<'_> {
    ghost gives = { λ t i r. r ≡ (field_piece t.strings.now t.count (field_row t.fields.now i)).number };

    fn verdict(&self, i: usize) -> u16 {
        let row = field_rows::field_row(self.fields, FieldNumber(i as u64));
        field_number(self.strings, row, self.count)
    }
}

// The first refusal of the records of all fields, each of which may name any of `count` fields as its parent.
fn fields_number(strings: &[u8], fields: &[u64], count: u64) -> u16
    ensures { result ≡ (pieces (field_item strings.now count) [] (all_rows field_row field_width fields.now)).number }
{
    let verdicts = FieldVerdicts {
        strings,
        fields,
        count,
    };
    verdicts::first_of_rows(fields.len() / FIELD_WORDS, &verdicts)
}

// The first refusal of the list of fields.
pub fn field_list_number(strings: &[u8], fields: &[u64]) -> u16
    ensures { result ≡ (field_list_piece strings.now (all_rows field_row field_width fields.now)).number }
{
    let n = fields.len() / FIELD_WORDS;
    let count = verdicts::at_most(rows::MOST_FIELDS, n);
    verdicts::first(count, fields_number(strings, fields, n as u64))
}
