// The rows of a header's fields, read and written by number.
#![tactic(auto)]

ghost use Rattle.std.specs.Prelude.{◌≡◌, ◌+◌, ◌*◌, ◌<◌};
ghost use Rattle.numbers.specs.Rows.{put};
ghost use Rattle.rows.specs.Words.{field_width, field_words, text_of, head_of, texts_of};
ghost use Rattle.rows.specs.Tables.{row_words, field_row, dark_mark};

use rows::{FIELD_WORDS, FieldHead, FieldNumber, FieldRow, FieldTexts, Text};

// The row of a field; zeros where the table has no such row whole.
pub fn field_row(table: &[u64], field: FieldNumber) -> FieldRow
    ensures { result ≡ field_row table.now field.0 }
{
    let row = field.0;
    FieldRow {
        head: field_head(table, row),
        texts: field_texts(table, row),
    }
}

// Its dark mark, which is the last word of its row.
pub fn dark_mark(table: &[u64], field: FieldNumber) -> u64
    ensures { result ≡ dark_mark table.now field.0 }
{
    rows::word(table, FIELD_WORDS, field.0, 14)
}

// Writes a field's row and its dark mark into the table, where there is room for the row.
pub fn put_field(table: &mut [u64], field: FieldNumber, row: FieldRow, dark: u64)
    ensures { table.new ≡ put table.old (field_width * field.0) (field_words dark row) }
{
    let i = field.0 as usize;
    if i < table.len() / FIELD_WORDS {
        let words = field_words(row, dark);
        rows::put_words(table, FIELD_WORDS * i, &words);
    }
}

// The words of a field's row.
fn field_words(row: FieldRow, dark: u64) -> [u64; 15]
    ensures { result ≡ field_words dark row }
{
    let head = row.head;
    let texts = row.texts;
    let parent = head.parent;
    let name = texts.name;
    let type_name = texts.type_name;
    let type_alias = texts.type_alias;
    let description = texts.description;
    [
        head.field_version,
        head.type_version,
        parent.0,
        head.role,
        head.flags,
        head.repetition,
        name.place as u64,
        name.len as u64,
        type_name.place as u64,
        type_name.len as u64,
        type_alias.place as u64,
        type_alias.len as u64,
        description.place as u64,
        description.len as u64,
        dark,
    ]
}

// A string of a field's row: its place in word j, its length in the next.
fn text_at(table: &[u64], row: u64, j: usize) -> Text
    requires { j + 1 < field_width }
    ensures { result ≡ text_of (row_words field_width table.now row) j }
{
    Text {
        place: rows::word(table, FIELD_WORDS, row, j) as usize,
        len: rows::word(table, FIELD_WORDS, row, j + 1) as usize,
    }
}

fn field_head(table: &[u64], row: u64) -> FieldHead
    ensures { result ≡ head_of (row_words field_width table.now row) }
{
    FieldHead {
        field_version: rows::word(table, FIELD_WORDS, row, 0),
        type_version: rows::word(table, FIELD_WORDS, row, 1),
        parent: FieldNumber(rows::word(table, FIELD_WORDS, row, 2)),
        role: rows::word(table, FIELD_WORDS, row, 3),
        flags: rows::word(table, FIELD_WORDS, row, 4),
        repetition: rows::word(table, FIELD_WORDS, row, 5),
    }
}

fn field_texts(table: &[u64], row: u64) -> FieldTexts
    ensures { result ≡ texts_of (row_words field_width table.now row) }
{
    FieldTexts {
        name: text_at(table, row, 6),
        type_name: text_at(table, row, 8),
        type_alias: text_at(table, row, 10),
        description: text_at(table, row, 12),
    }
}
