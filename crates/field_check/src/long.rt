// The length of the fields' records, by the lengths of their strings as given.
ghost use Rattle.std.specs.Prelude.{◌≡◌, List, [], ℕ, ◌+◌};
ghost use Rattle.rows.specs.Words.{field_width};
ghost use Rattle.rows.specs.Tables.{field_row};
ghost use Rattle.writing.specs.Piece.{record_piece, pieces};
ghost use Rattle.writing.specs.Rows.{all_rows};
ghost use Rattle.writing.specs.Header.{repetition_piece, field_piece, field_item};
ghost use Rattle.verdicts.specs.Length.{capped};

use rows::{FIELD_WORDS, FieldNumber, FieldRow};

// How many bytes a field's record has besides the characters of its strings.
fn numbers_long(flags: u64) -> usize
    ensures { result ≡ 36 + (repetition_piece flags 0).long }
{
    if flags % 2 == 1 {
        return 44;
    }
    36
}

// A length with the record of a field more.
fn with_field(total: usize, row: FieldRow) -> usize
    ensures { (strings : List ℕ) (n : ℕ) → result ≡ capped (total + (record_piece (field_piece strings n row)).long) }
{
    let head = row.head;
    let texts = row.texts;
    let name = texts.name;
    let type_name = texts.type_name;
    let type_alias = texts.type_alias;
    let description = texts.description;
    let numbers = verdicts::grown(total, numbers_long(head.flags));
    let named = verdicts::grown(verdicts::grown(numbers, name.len), type_name.len);
    verdicts::grown(verdicts::grown(named, type_alias.len), description.len)
}

// The length of the records of all fields; no more than one above an envelope's ceiling.
pub fn fields_long(fields: &[u64]) -> usize
    ensures { (strings : List ℕ) (n : ℕ) → result ≡ capped (pieces (field_item strings n) [] (all_rows field_row field_width fields.now)).long }
{
    let n = fields.len() / FIELD_WORDS;
    let mut total = 0;
    for i in 0..n {
        total = with_field(total, field_rows::field_row(fields, FieldNumber(i as u64)));
    }
    total
}
