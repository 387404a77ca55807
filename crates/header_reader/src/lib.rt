// The reading of a header into lent tables.
#![tactic(auto)]

mod fill;

ghost use Rattle.header.specs.Tables.{header_of, Answered};

use header::HeaderAnswer;

// A header of at most so many bytes, and the words for the rows of its fields, columns and aliases. A field takes at least 36 bytes, so
// that there is room for all of them, and for the columns and aliases of nearly every such header.
const SMALL_HEADER: usize = 1024;

const SMALL_FIELDS: usize = rows::FIELD_WORDS * 28;

const SMALL_COLUMNS: usize = rows::COLUMN_WORDS * 40;

const SMALL_ALIASES: usize = rows::ALIAS_WORDS * 16;

// Reads a header into the lent tables (15 words to a field, 4 to a column, 2 to an alias), and answers.
pub fn read_header(
    envelope: &[u8],
    fields: &mut [u64],
    columns: &mut [u64],
    aliases: &mut [u64],
) -> HeaderAnswer
    ensures { Answered (header_of envelope.now) fields.old fields.new columns.old columns.new aliases.old aliases.new result }
{
    if envelope.len() <= SMALL_HEADER {
        return read_small(envelope, fields, columns, aliases);
    }
    read_large(envelope, fields, columns, aliases)
}

// The same for a header of few bytes, whose rows are few: to set up arrays for all the rows that a header may have takes longer than
// to read it. Where its rows are more after all, the large arrays are used.
fn read_small(
    envelope: &[u8],
    fields: &mut [u64],
    columns: &mut [u64],
    aliases: &mut [u64],
) -> HeaderAnswer
    ensures { Answered (header_of envelope.now) fields.old fields.new columns.old columns.new aliases.old aliases.new result }
{
    let mut parents = [0u16; rows::MOST_FIELDS];
    let mut flags = [0u64; rows::MOST_FIELDS];
    let mut field_rows = [0u64; SMALL_FIELDS];
    let mut column_rows = [0u64; SMALL_COLUMNS];
    let mut alias_rows = [0u64; SMALL_ALIASES];
    let step = header_scan::scan_header(
        envelope,
        &mut parents,
        &mut flags,
        &mut field_rows,
        &mut column_rows,
        &mut alias_rows,
    );
    if fill::rows_there(step, SMALL_FIELDS, SMALL_COLUMNS, SMALL_ALIASES) {
        return fill::answer_scan(
            envelope,
            step,
            &parents,
            &field_rows,
            &column_rows,
            &alias_rows,
            fields,
            columns,
            aliases,
        );
    }
    read_large(envelope, fields, columns, aliases)
}

// The same, with arrays for all the rows that a header may have.
fn read_large(
    envelope: &[u8],
    fields: &mut [u64],
    columns: &mut [u64],
    aliases: &mut [u64],
) -> HeaderAnswer
    ensures { Answered (header_of envelope.now) fields.old fields.new columns.old columns.new aliases.old aliases.new result }
{
    let mut parents = [0u16; rows::MOST_FIELDS];
    let mut flags = [0u64; rows::MOST_FIELDS];
    let mut field_rows = [0u64; rows::FULL_FIELDS];
    let mut column_rows = [0u64; rows::FULL_COLUMNS];
    let mut alias_rows = [0u64; rows::FULL_ALIASES];
    let step = header_scan::scan_header(
        envelope,
        &mut parents,
        &mut flags,
        &mut field_rows,
        &mut column_rows,
        &mut alias_rows,
    );
    fill::answer_scan(
        envelope,
        step,
        &parents,
        &field_rows,
        &column_rows,
        &alias_rows,
        fields,
        columns,
        aliases,
    )
}
