// The totals of a cluster: the elements of each top-level field's first column against the cluster's entries.
#![tactic(auto)]

ghost use Rattle.std.specs.Prelude.{◌≡◌, true, false, ℕ, ◌<◌, get_or, take};
ghost use Rattle.numbers.specs.Choice.{pick};
ghost use Rattle.rows.specs.Words.{most_fields};
ghost use Rattle.rows.specs.Tables.{columns_in};
ghost use Rattle.totals.specs.Totals.{agrees, total_of, counts, totals};

use rows::{ColumnNumber, FieldNumber};

// A column's elements are as many as the cluster has entries, or its type is unknown.
fn agrees(entries: u64, column_type: u64, elements: u64) -> bool
    ensures { result ≡ agrees entries column_type elements }
{
    if column_type::is_known(column_type) {
        return elements == entries;
    }
    true
}

// For each field, whether its first column, if it has one, agrees with the entries. The columns are noted from the last to the
// first, so that of two on one field the first stays.
fn agreeing(entries: u64, columns: &[u64], n: usize, sums: &[u64]) -> [bool; rows::MOST_FIELDS]
    ensures { (f : ℕ) → f < most_fields → get_or result f false ≡ total_of entries f (columns_in columns.now n) sums.now }
{
    let mut marks = [true; rows::MOST_FIELDS];
    for i in (0..n.min(sums.len())).rev() {
        let column = column_rows::column_row(columns, ColumnNumber(i as u64));
        let field = column.field;
        let f = field.0 as usize;
        if f < rows::MOST_FIELDS {
            marks[f] = agrees(entries, column.column_type, sums[i]);
        }
    }
    marks
}

// The totals agree for field f, whose first column has that mark.
fn field_agrees(f: usize, parent: u16, flags: u64, mark: bool) -> bool
    ensures { result ≡ pick (counts f parent flags) mark true }
{
    if parent as usize == f && flags == 0 {
        return mark;
    }
    true
}

// The lowest field whose totals do not agree, if there is one, of fields with these parents and flags, as many as there can be, and for the
// first n columns of a table, which have these sums of elements.
pub fn totals_of(
    entries: u64,
    parents: &[u16],
    flags: &[u64],
    columns: &[u64],
    n: usize,
    sums: &[u64],
) -> Option<FieldNumber>
    ensures { result ≡ totals entries (columns_in columns.now n) sums.now 0 (take most_fields parents.now) flags.now }
{
    let marks = agreeing(entries, columns, n, sums);
    let fields = parents.len().min(flags.len()).min(rows::MOST_FIELDS);
    for f in 0..fields {
        if !field_agrees(f, parents[f], flags[f], marks[f]) {
            return Some(FieldNumber(f as u64));
        }
    }
    None
}
