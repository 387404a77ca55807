// The parent chains of fields of which nothing is refused.
ghost use Rattle.std.specs.Prelude.{◌≡◌, ◌/◌, take};
ghost use Rattle.rows.specs.Words.{field_width};
ghost use Rattle.rows.specs.Tables.{field_row, rows_in};
ghost use Rattle.header.specs.Tables.{parents_of};
ghost use Rattle.writing.specs.Rows.{all_rows};
ghost use Rattle.writing.specs.Header.{chains};
ghost use Rattle.header_check.specs.Parented.{Parented};

use rows::FIELD_WORDS;

// The word of a field's row that has its parent.
const PARENT: usize = 2;

// The parents of all fields, in front.
fn all_parents(fields: &[u64]) -> [u16; rows::MOST_FIELDS]
    requires { Parented (all_rows field_row field_width fields.now) }
    ensures { take (rows_in field_width fields.now) result ≡ parents_of (all_rows field_row field_width fields.now) }
{
    let n = fields.len() / FIELD_WORDS;
    let mut all = [0u16; rows::MOST_FIELDS];
    for i in 0..n {
        all[i] = rows::word(fields, FIELD_WORDS, i as u64, PARENT) as u16;
    }
    all
}

// Refusal 15 where a chain never ends.
pub fn chains_number(fields: &[u64]) -> u16
    requires { Parented (all_rows field_row field_width fields.now) }
    ensures { result ≡ chains (all_rows field_row field_width fields.now) }
{
    match parents::endless_chain(all_parents(fields), fields.len() / FIELD_WORDS) {
        None => 0,
        Some(_) => 15,
    }
}
