// What a line says, read from the tables: the line is measured and written by it.
ghost use Rattle.std.specs.Prelude.{◌≡◌};
ghost use Rattle.listing.specs.Lines.{marked};
ghost use Rattle.listing.specs.Entries.{entry_row};
ghost use Rattle.listing_lines.specs.Line.{line_of};

use listing::ENTRY_WORDS;
use rows::{FieldNumber, Text};

#[derive(Clone, Copy)]
pub struct Line {
    pub level: u64,
    pub field: u64,
    pub name: Text,
    pub type_name: Text,
    pub dark: bool,
}

// The line of entry i.
pub fn line_of(fields: &[u64], marks: &[u8], entries: &[u64], i: usize) -> Line
    ensures { result ≡ line_of fields.now marks.now (entry_row entries.now i) }
{
    let field = rows::word(entries, ENTRY_WORDS, i as u64, 0);
    let level = rows::word(entries, ENTRY_WORDS, i as u64, 1);
    let row = field_rows::field_row(fields, FieldNumber(field));
    let texts = row.texts;
    let name = texts.name;
    let type_name = texts.type_name;
    Line {
        level,
        field,
        name,
        type_name,
        dark: is_dark(marks, field),
    }
}

// A field beyond the marks is not dark.
fn is_dark(marks: &[u8], field: u64) -> bool
    ensures { result ≡ marked marks.now field }
{
    let k = field as usize;
    if k < marks.len() {
        return marks[k] == 1;
    }
    false
}
