// A header's strings and rows.
ghost use Rattle.std.specs.Prelude.{ℕ, List};
ghost use Rattle.stores.specs.Stored.{Stored};
ghost use Rattle.writing.specs.Piece.{text, record_piece};
ghost use Rattle.writing.specs.Header.{repetition_piece, field_head_piece, field_texts_piece, field_piece, column_piece, alias_piece};

use rows::{AliasRow, ColumnRow, FieldHead, FieldRow, FieldTexts, Text};

// A string of the lent strings: its length, then its characters.
pub fn write_text(strings: &[u8], string: Text, at: usize, out: &mut [u8]) -> usize
    ensures { Stored out.old at (text strings.now string).bytes out.new result }
{
    let characters = verdicts::characters(strings, string);
    let next = stores::store_4(characters.len() as u64, at, out);
    stores::store_bytes(characters, next, out)
}

fn write_repetition(flags: u64, repetition: u64, at: usize, out: &mut [u8]) -> usize
    ensures { Stored out.old at (repetition_piece flags repetition).bytes out.new result }
{
    if flags % 2 == 1 {
        return stores::store_8(repetition, at, out);
    }
    at
}

// What a field has before its strings.
fn write_head(head: FieldHead, at: usize, out: &mut [u8]) -> usize
    ensures { (n : ℕ) → Stored out.old at (field_head_piece n head).bytes out.new result }
{
    let parent = head.parent;
    let second = stores::store_4(head.field_version, at, out);
    let third = stores::store_4(head.type_version, second, out);
    let fourth = stores::store_4(parent.0, third, out);
    let fifth = stores::store_2(head.role, fourth, out);
    let sixth = stores::store_2(head.flags, fifth, out);
    write_repetition(head.flags, head.repetition, sixth, out)
}

// The strings of a field.
fn write_texts(strings: &[u8], texts: FieldTexts, at: usize, out: &mut [u8]) -> usize
    ensures { Stored out.old at (field_texts_piece strings.now texts).bytes out.new result }
{
    let second = write_text(strings, texts.name, at, out);
    let third = write_text(strings, texts.type_name, second, out);
    let fourth = write_text(strings, texts.type_alias, third, out);
    write_text(strings, texts.description, fourth, out)
}

// The record of a field. Its size is stored last.
pub fn write_field(strings: &[u8], field: FieldRow, at: usize, out: &mut [u8]) -> usize
    ensures { (n : ℕ) → Stored out.old at (record_piece (field_piece strings.now n field)).bytes out.new result }
{
    let body = stores::store_4(0, at, out);
    let texts = write_head(field.head, body, out);
    let end = write_texts(strings, field.texts, texts, out);
    stores::store_4((end - at) as u64, at, out);
    end
}

// The record of a column, of 16 bytes.
pub fn write_column(column: ColumnRow, at: usize, out: &mut [u8]) -> usize
    ensures { (n : ℕ) → Stored out.old at (record_piece (column_piece n column)).bytes out.new result }
{
    let field = column.field;
    let first = stores::store_4(16, at, out);
    let second = stores::store_2(column.column_type, first, out);
    let third = stores::store_2(column.bits, second, out);
    let fourth = stores::store_4(field.0, third, out);
    stores::store_4(column.flags, fourth, out)
}

// The record of an alias, of 12 bytes.
pub fn write_alias(alias: AliasRow, at: usize, out: &mut [u8]) -> usize
    ensures { (flags : List ℕ) (columns : ℕ) → Stored out.old at (record_piece (alias_piece flags columns alias)).bytes out.new result }
{
    let column = alias.column;
    let field = alias.field;
    let first = stores::store_4(12, at, out);
    let second = stores::store_4(column.0, first, out);
    stores::store_4(field.0, second, out)
}
