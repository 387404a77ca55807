// From the scan of a header to the answer, and of an accepted one from the arrays of the scan into the lent tables.
ghost use Rattle.std.specs.Prelude.{◌≡◌, ◌*◌, ◌≤◌, length, get_or, take};
ghost use Rattle.numbers.specs.Rows.{flat_by, over};
ghost use Rattle.rows.specs.Words.{field_width, column_width, alias_width, field_words};
ghost use Rattle.rows.specs.Tables.{field_row, first_rows, columns_in};
ghost use Rattle.parents.specs.Dark.{dark_mark};
ghost use Rattle.wire.specs.Reading.{mapped};
ghost use Rattle.wire.specs.Answers.{as_step};
ghost use Rattle.header.specs.Tables.{fitting, header_of, Answered};
ghost use Rattle.header_payload.specs.Answers.{scan_of};
ghost use Rattle.header_reader.specs.Fits.{Fits, Scanned, rows_there};

use header::{HeaderAnswer, HeaderTables};
use header_payload::{HeaderLists, HeaderScan};
use rows::FieldNumber;
use wire::Step;

// The lent tables have room for the rows.
pub fn has_room(lists: HeaderLists, fields: usize, columns: usize, aliases: usize) -> bool
    ensures { result ≡ fitting fields columns aliases lists.fields lists.columns lists.aliases }
{
    if lists.fields <= fields / rows::FIELD_WORDS {
        if lists.columns <= columns / rows::COLUMN_WORDS {
            return lists.aliases <= aliases / rows::ALIAS_WORDS;
        }
        return false;
    }
    false
}

// Writes the first n rows of fields into `table`; `marks` has the dark mark of each.
fn fill_fields(table: &mut [u64], field_rows: &[u64], n: usize, marks: &[u8])
    requires { (field_width * n ≤ length table.old) × (n ≤ length marks.now) }
    ensures { table.new ≡ over (flat_by (λ i. field_words (get_or marks.now i 0)) 0 (first_rows field_row field_rows.now n)) table.old }
{
    for i in 0..n {
        let row = field_rows::field_row(field_rows, FieldNumber(i as u64));
        field_rows::put_field(table, FieldNumber(i as u64), row, marks[i] as u64);
    }
}

// Writes the rows of the lists into the lent tables, those of fields with their dark marks.
pub fn fill_tables(
    lists: HeaderLists,
    parents: &[u16; rows::MOST_FIELDS],
    field_rows: &[u64],
    column_rows: &[u64],
    alias_rows: &[u64],
    fields: &mut [u64],
    columns: &mut [u64],
    aliases: &mut [u64],
)
    requires { Fits lists.fields lists.columns lists.aliases (length column_rows.now) (length alias_rows.now) (length fields.old) (length columns.old) (length aliases.old) }
    ensures fields_after { fields.new ≡ over (flat_by (λ i. field_words (dark_mark parents.now lists.fields (columns_in column_rows.now lists.columns) i)) 0 (first_rows field_row field_rows.now lists.fields)) fields.old }
    ensures columns_after { columns.new ≡ over (take (column_width * lists.columns) column_rows.now) columns.old }
    ensures aliases_after { aliases.new ≡ over (take (alias_width * lists.aliases) alias_rows.now) aliases.old }
{
    let marks = parents::dark_marks(parents, lists.fields, column_rows, lists.columns);
    fill_fields(fields, field_rows, lists.fields, &marks);
    let column_words = rows::COLUMN_WORDS * lists.columns;
    rows::put_words(columns, 0, &column_rows[..column_words]);
    let alias_words = rows::ALIAS_WORDS * lists.aliases;
    rows::put_words(aliases, 0, &alias_rows[..alias_words]);
}

// Arrays of so many words had room for the rows that a scan found.
pub fn rows_there(step: Step<HeaderScan>, fields: usize, columns: usize, aliases: usize) -> bool
    ensures { result ≡ rows_there fields columns aliases (as_step step) }
{
    match step {
        Ok((scan, _)) => has_room(scan.lists, fields, columns, aliases),
        Err(_) => true,
    }
}

// The answer for an envelope that was scanned, whose rows are in the arrays of the scan.
pub fn answer_scan(
    envelope: &[u8],
    step: Step<HeaderScan>,
    parents: &[u16; rows::MOST_FIELDS],
    field_rows: &[u64],
    column_rows: &[u64],
    alias_rows: &[u64],
    fields: &mut [u64],
    columns: &mut [u64],
    aliases: &mut [u64],
) -> HeaderAnswer
    requires step_value { as_step step ≡ mapped scan_of (header_of envelope.now) }
    requires scanned { Scanned (header_of envelope.now) parents.now field_rows.now column_rows.now alias_rows.now }
    ensures { Answered (header_of envelope.now) fields.old fields.new columns.old columns.new aliases.old aliases.new result }
{
    match step {
        Ok((scan, _)) => {
            let lists = scan.lists;
            let texts = scan.texts;
            if has_room(lists, fields.len(), columns.len(), aliases.len()) {
                fill_tables(
                    lists,
                    parents,
                    field_rows,
                    column_rows,
                    alias_rows,
                    fields,
                    columns,
                    aliases,
                );
                return Ok(HeaderTables {
                    texts,
                    fields: lists.fields,
                    columns: lists.columns,
                    aliases: lists.aliases,
                });
            }
            Err(20)
        }
        Err(f) => Err(f.number),
    }
}
