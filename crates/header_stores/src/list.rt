// A header's lists. The head of each is stored last, when its size is known.
ghost use Rattle.std.specs.Prelude.{ℕ, List, []};
ghost use Rattle.rows.specs.Words.{field_width, column_width, alias_width};
ghost use Rattle.rows.specs.Tables.{field_row, column_row, alias_row, first_rows};
ghost use Rattle.stores.specs.Stored.{Stored};
ghost use Rattle.writing.specs.Piece.{pieces, record_piece};
ghost use Rattle.writing.specs.Rows.{all_rows};
ghost use Rattle.writing.specs.Header.{field_piece, column_piece, alias_piece, field_item, column_item, alias_item, field_list_piece, column_list_piece, alias_list_piece};

use crate::row::{write_alias, write_column, write_field};
use rows::{ALIAS_WORDS, COLUMN_WORDS, ColumnNumber, FIELD_WORDS, FieldNumber};
use stores::{StoreItems, StoreRow};

// The first n fields of a table.
#[derive(Clone, Copy)]
struct FieldTable<'a> {
    strings: &'a [u8],
    fields: &'a [u64],
    n: usize,
}

impl StoreRow for FieldTable<'_> {
    ghost leaves = { λ t i at before end after. (m : ℕ) → Stored before at (record_piece (field_piece t.strings.now m (field_row t.fields.now i))).bytes after end };

    fn store_row(&self, i: usize, at: usize, out: &mut [u8]) -> usize {
        let row = field_rows::field_row(self.fields, FieldNumber(i as u64));
        write_field(self.strings, row, at, out)
    }
}

impl StoreItems for FieldTable<'_> {
    ghost leaves = { λ t at before end after. (m : ℕ) → Stored before at (pieces (field_item t.strings.now m) [] (first_rows field_row t.fields.now t.n)).bytes after end };

    fn store_items(&self, at: usize, out: &mut [u8]) -> usize {
        write_fields(self.strings, self.fields, self.n, at, out)
    }
}

// The records of the first n fields.
fn write_fields(strings: &[u8], fields: &[u64], n: usize, at: usize, out: &mut [u8]) -> usize
    ensures { (m : ℕ) → Stored out.old at (pieces (field_item strings.now m) [] (first_rows field_row fields.now n)).bytes out.new result }
{
    let rows = FieldTable { strings, fields, n };
    stores::store_rows(n, at, out, &rows)
}

// The list of all fields.
pub fn write_field_list(strings: &[u8], fields: &[u64], at: usize, out: &mut [u8]) -> usize
    ensures { Stored out.old at (field_list_piece strings.now (all_rows field_row field_width fields.now)).bytes out.new result }
{
    let n = fields.len() / FIELD_WORDS;
    let items = FieldTable { strings, fields, n };
    stores::store_list(n, at, out, &items)
}

// The first n columns of a table.
#[derive(Clone, Copy)]
struct ColumnTable<'a> {
    columns: &'a [u64],
    n: usize,
}

impl StoreRow for ColumnTable<'_> {
    ghost leaves = { λ t i at before end after. (fields : ℕ) → Stored before at (record_piece (column_piece fields (column_row t.columns.now i))).bytes after end };

    fn store_row(&self, i: usize, at: usize, out: &mut [u8]) -> usize {
        let row = column_rows::column_row(self.columns, ColumnNumber(i as u64));
        write_column(row, at, out)
    }
}

impl StoreItems for ColumnTable<'_> {
    ghost leaves = { λ t at before end after. (fields : ℕ) → Stored before at (pieces (column_item fields) [] (first_rows column_row t.columns.now t.n)).bytes after end };

    fn store_items(&self, at: usize, out: &mut [u8]) -> usize {
        write_columns(self.columns, self.n, at, out)
    }
}

// The records of the first n columns.
fn write_columns(columns: &[u64], n: usize, at: usize, out: &mut [u8]) -> usize
    ensures { (fields : ℕ) → Stored out.old at (pieces (column_item fields) [] (first_rows column_row columns.now n)).bytes out.new result }
{
    let rows = ColumnTable { columns, n };
    stores::store_rows(n, at, out, &rows)
}

// The list of all columns.
pub fn write_column_list(columns: &[u64], at: usize, out: &mut [u8]) -> usize
    ensures { (fields : ℕ) → Stored out.old at (column_list_piece fields (all_rows column_row column_width columns.now)).bytes out.new result }
{
    let n = columns.len() / COLUMN_WORDS;
    let items = ColumnTable { columns, n };
    stores::store_list(n, at, out, &items)
}

// The first n aliases of a table.
#[derive(Clone, Copy)]
struct AliasTable<'a> {
    aliases: &'a [u64],
    n: usize,
}

impl StoreRow for AliasTable<'_> {
    ghost leaves = { λ t i at before end after. (flags : List ℕ) (columns : ℕ) → Stored before at (record_piece (alias_piece flags columns (alias_row t.aliases.now i))).bytes after end };

    fn store_row(&self, i: usize, at: usize, out: &mut [u8]) -> usize {
        let row = column_rows::alias_row(self.aliases, i as u64);
        write_alias(row, at, out)
    }
}

impl StoreItems for AliasTable<'_> {
    ghost leaves = { λ t at before end after. (flags : List ℕ) (columns : ℕ) → Stored before at (pieces (alias_item flags columns) [] (first_rows alias_row t.aliases.now t.n)).bytes after end };

    fn store_items(&self, at: usize, out: &mut [u8]) -> usize {
        write_aliases(self.aliases, self.n, at, out)
    }
}

// The records of the first n aliases.
fn write_aliases(aliases: &[u64], n: usize, at: usize, out: &mut [u8]) -> usize
    ensures { (flags : List ℕ) (columns : ℕ) → Stored out.old at (pieces (alias_item flags columns) [] (first_rows alias_row aliases.now n)).bytes out.new result }
{
    let rows = AliasTable { aliases, n };
    stores::store_rows(n, at, out, &rows)
}

// The list of all aliases.
pub fn write_alias_list(aliases: &[u64], at: usize, out: &mut [u8]) -> usize
    ensures { (flags : List ℕ) (columns : ℕ) → Stored out.old at (alias_list_piece flags columns (all_rows alias_row alias_width aliases.now)).bytes out.new result }
{
    let n = aliases.len() / ALIAS_WORDS;
    let items = AliasTable { aliases, n };
    stores::store_list(n, at, out, &items)
}
