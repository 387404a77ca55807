// Dark fields: those on which, or below which, a column of unknown type hangs.
ghost use Rattle.std.specs.Prelude.{◌≡◌, ℕ, ◌<◌, ◌≤◌, length, get_or, take};
ghost use Rattle.rows.specs.Words.{most_fields, bit};
ghost use Rattle.rows.specs.Tables.{columns_in};
ghost use Rattle.parents.specs.Parents.{Inside};
ghost use Rattle.parents.specs.Dark.{dark, hanging, unknown_on};
ghost use Rattle.parents.specs.Marks.{DarkMarks, Darkened};

use crate::walk::parent_of;
use rows::{ColumnNumber, ColumnRow, FieldNumber};

// Makes a field dark, and every field above it, up to one that is dark already.
fn darken(parents: &[u16], marks: &mut [u8; rows::MOST_FIELDS], n: usize, field: FieldNumber)
    requires n_le_most_fields { (n ≤ most_fields) × (field.0 < n) × (n ≤ length parents.now) }
    requires inside { Inside parents.now n }
    requires dark_marks { DarkMarks parents.now marks.old n }
    ensures { Darkened parents.now marks.old marks.new n field.0 }
{
    let mut f = field;
    loop {
        let at = f.0 as usize;
        let mark = marks[at];
        if mark != 0 {
            return;
        }
        marks[at] = 1;
        f = parent_of(parents, f);
    }
}

// A column is of unknown type, and hangs on one of n fields.
fn unknown_on(column: ColumnRow, n: usize) -> bool
    ensures { result ≡ unknown_on n column }
{
    if column_type::is_known(column.column_type) {
        return false;
    }
    let field = column.field;
    field.0 < n as u64
}

// The dark marks of n fields, by the first `count` columns of a table.
pub fn marks_of(parents: &[u16], n: usize, columns: &[u64], count: usize) -> [u8; rows::MOST_FIELDS]
    requires n_le_most_fields { (n ≤ most_fields) × (n ≤ length parents.now) }
    requires inside { Inside parents.now n }
    ensures { (f : ℕ) → get_or result f 0 ≡ bit (dark (take n parents.now) (hanging n (columns_in columns.now count)) f) }
{
    let mut marks = [0u8; rows::MOST_FIELDS];
    for i in 0..count {
        let column = column_rows::column_row(columns, ColumnNumber(i as u64));
        if unknown_on(column, n) {
            darken(parents, &mut marks, n, column.field);
        }
    }
    marks
}
