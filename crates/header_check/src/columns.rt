// Refusals of columns.
ghost use Rattle.std.specs.Prelude.{◌≡◌, []};
ghost use Rattle.rows.specs.Words.{column_width};
ghost use Rattle.rows.specs.Tables.{column_row};
ghost use Rattle.writing.specs.Piece.{pieces};
ghost use Rattle.writing.specs.Rows.{all_rows};
ghost use Rattle.writing.specs.Header.{column_piece, column_item, column_list_piece};

use records::tested;
use rows::{COLUMN_WORDS, ColumnNumber, ColumnRow};
use verdicts::{BITS_16, BITS_32, RowVerdicts};

// A column, where there are `fields` fields.
fn column_number(row: ColumnRow, fields: u64) -> u16
    ensures { result ≡ (column_piece fields row).number }
{
    let field = row.field;
    let sized = column_records::sized(row.column_type, row.bits);
    let column_type = verdicts::narrow(row.column_type, BITS_16, 0);
    let bits = verdicts::narrow(row.bits, BITS_16, sized);
    let owner = verdicts::narrow(field.0, BITS_32, tested::below(fields, field.0));
    let flags = verdicts::narrow(row.flags, BITS_32, tested::listed(7, row.flags));
    let last = verdicts::first(owner, flags);
    verdicts::first(column_type, verdicts::first(bits, last))
}

// The verdicts on columns, where there are `fields` fields.
#[derive(Clone, Copy)]
struct ColumnVerdicts<'a> {
    columns: &'a [u64],
    fields: u64,
}

impl RowVerdicts for ColumnVerdicts<'_> {
    ghost gives = { λ t i r. r ≡ (column_piece t.fields (column_row t.columns.now i)).number };

    fn verdict(&self, i: usize) -> u16 {
        let row = column_rows::column_row(self.columns, ColumnNumber(i as u64));
        column_number(row, self.fields)
    }
}

// The first refusal of the records of all columns.
fn columns_number(columns: &[u64], fields: u64) -> u16
    ensures { result ≡ (pieces (column_item fields) [] (all_rows column_row column_width columns.now)).number }
{
    let verdicts = ColumnVerdicts { columns, fields };
    verdicts::first_of_rows(columns.len() / COLUMN_WORDS, &verdicts)
}

// The first refusal of the list of columns.
pub fn column_list_number(columns: &[u64], fields: u64) -> u16
    ensures { result ≡ (column_list_piece fields (all_rows column_row column_width columns.now)).number }
{
    let count = verdicts::at_most(rows::MOST_COLUMNS, columns.len() / COLUMN_WORDS);
    verdicts::first(count, columns_number(columns, fields))
}
