// The rows of a header's columns and aliases, read and written by number.
#![tactic(auto)]

ghost use Rattle.std.specs.Prelude.{◌≡◌, ◌*◌};
ghost use Rattle.numbers.specs.Rows.{put};
ghost use Rattle.rows.specs.Words.{column_width, alias_width, column_words, alias_words};
ghost use Rattle.rows.specs.Tables.{column_row, alias_row};

use rows::{ALIAS_WORDS, AliasRow, COLUMN_WORDS, ColumnNumber, ColumnRow, FieldNumber};

// The row of a column, and of an alias; zeros where the table has no such row whole.
pub fn column_row(table: &[u64], column: ColumnNumber) -> ColumnRow
    ensures { result ≡ column_row table.now column.0 }
{
    let row = column.0;
    ColumnRow {
        column_type: rows::word(table, COLUMN_WORDS, row, 0),
        bits: rows::word(table, COLUMN_WORDS, row, 1),
        field: FieldNumber(rows::word(table, COLUMN_WORDS, row, 2)),
        flags: rows::word(table, COLUMN_WORDS, row, 3),
    }
}

pub fn alias_row(table: &[u64], row: u64) -> AliasRow
    ensures { result ≡ alias_row table.now row }
{
    AliasRow {
        column: ColumnNumber(rows::word(table, ALIAS_WORDS, row, 0)),
        field: FieldNumber(rows::word(table, ALIAS_WORDS, row, 1)),
    }
}

// Writes a row into the table, where there is room for it.
pub fn put_column(table: &mut [u64], column: ColumnNumber, row: ColumnRow)
    ensures { table.new ≡ put table.old (column_width * column.0) (column_words row) }
{
    let i = column.0 as usize;
    if i < table.len() / COLUMN_WORDS {
        let field = row.field;
        let words = [row.column_type, row.bits, field.0, row.flags];
        rows::put_words(table, COLUMN_WORDS * i, &words);
    }
}

pub fn put_alias(table: &mut [u64], i: usize, row: AliasRow)
    ensures { table.new ≡ put table.old (alias_width * i) (alias_words row) }
{
    if i < table.len() / ALIAS_WORDS {
        let column = row.column;
        let field = row.field;
        let words = [column.0, field.0];
        rows::put_words(table, ALIAS_WORDS * i, &words);
    }
}
