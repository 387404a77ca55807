// Refusals of aliases.
ghost use Rattle.std.specs.Prelude.{◌≡◌, []};
ghost use Rattle.rows.specs.Words.{field_width, alias_width};
ghost use Rattle.rows.specs.Tables.{field_row, alias_row};
ghost use Rattle.records.specs.Records.{aliasable};
ghost use Rattle.header.specs.Header.{flags_of};
ghost use Rattle.writing.specs.Piece.{pieces};
ghost use Rattle.writing.specs.Rows.{all_rows};
ghost use Rattle.writing.specs.Header.{alias_piece, alias_item, alias_list_piece};

use records::tested;
use rows::{ALIAS_WORDS, AliasRow, FIELD_WORDS};
use verdicts::{BITS_32, RowVerdicts};

// The word of a field's row that has its flags.
const FLAGS: usize = 4;

// The verdict on an alias's field: one of the fields, with the alias flag. Where there is no such field there are no flags.
fn aliasable(fields: &[u64], field: u64) -> u16
    ensures { result ≡ aliasable (flags_of (all_rows field_row field_width fields.now)) field }
{
    let flags = rows::word(fields, FIELD_WORDS, field, FLAGS);
    if flags / 2 % 2 == 1 {
        return 0;
    }
    14
}

// An alias, where there are `columns` columns.
fn alias_number(row: AliasRow, fields: &[u64], columns: u64) -> u16
    ensures { result ≡ (alias_piece (flags_of (all_rows field_row field_width fields.now)) columns row).number }
{
    let column = row.column;
    let field = row.field;
    let physical = verdicts::narrow(column.0, BITS_32, tested::below(columns, column.0));
    let aliased = verdicts::narrow(field.0, BITS_32, aliasable(fields, field.0));
    verdicts::first(physical, aliased)
}

// The verdicts on aliases of these fields, where there are `columns` columns.
#[derive(Clone, Copy)]
struct AliasVerdicts<'a> {
    aliases: &'a [u64],
    fields: &'a [u64],
    columns: u64,
}

impl RowVerdicts for AliasVerdicts<'_> {
    ghost gives = { λ t i r. r ≡ (alias_piece (flags_of (all_rows field_row field_width t.fields.now)) t.columns (alias_row t.aliases.now i)).number };

    fn verdict(&self, i: usize) -> u16 {
        let row = column_rows::alias_row(self.aliases, i as u64);
        alias_number(row, self.fields, self.columns)
    }
}

// The first refusal of the records of all aliases.
fn aliases_number(aliases: &[u64], fields: &[u64], columns: u64) -> u16
    ensures { result ≡ (pieces (alias_item (flags_of (all_rows field_row field_width fields.now)) columns) [] (all_rows alias_row alias_width aliases.now)).number }
{
    let verdicts = AliasVerdicts {
        aliases,
        fields,
        columns,
    };
    verdicts::first_of_rows(aliases.len() / ALIAS_WORDS, &verdicts)
}

// The first refusal of the list of aliases.
pub fn alias_list_number(aliases: &[u64], fields: &[u64], columns: u64) -> u16
    ensures { result ≡ (alias_list_piece (flags_of (all_rows field_row field_width fields.now)) columns (all_rows alias_row alias_width aliases.now)).number }
{
    let count = verdicts::at_most(rows::MOST_ALIASES, aliases.len() / ALIAS_WORDS);
    verdicts::first(count, aliases_number(aliases, fields, columns))
}
