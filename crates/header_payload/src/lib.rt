// The payload of a header, read once: the verdict on it, and the rows of its lists in tables of the caller's.
#![tactic(auto)]

ghost use Rattle.std.specs.Prelude.{◌≡◌, length, replicate};
ghost use Rattle.rows.specs.Words.{most_fields};
ghost use Rattle.wire.specs.Reading.{mapped};
ghost use Rattle.wire.specs.Answers.{as_step};
ghost use Rattle.frames.specs.Frames.{closed};
ghost use Rattle.envelope.specs.Envelope.{whole};
ghost use Rattle.header.specs.Header.{payload};
ghost use Rattle.header_payload.specs.Answers.{scan_of, gathered};
ghost use Rattle.header_payload.specs.Settled.{Settled};

use records::HeaderTexts;
use wire::Step;

// Where the list of fields stands, and how many items each list has.
#[derive(Clone, Copy)]
pub struct HeaderLists {
    pub fields_at: usize,
    pub fields: usize,
    pub columns: usize,
    pub aliases: usize,
}

#[derive(Clone, Copy)]
pub struct HeaderScan {
    pub texts: HeaderTexts,
    pub lists: HeaderLists,
}

// The verdict on a payload. Where it is accepted, the arrays have in front the parent and the flags of each field, and the tables the
// rows of fields (no dark mark yet), columns and aliases, as far as each has room; where it is refused they are all zero.
pub fn scan_payload(
    s: &[u8],
    strict: bool,
    parents: &mut [u16; rows::MOST_FIELDS],
    flags: &mut [u64; rows::MOST_FIELDS],
    fields: &mut [u64],
    columns: &mut [u64],
    aliases: &mut [u64],
) -> Step<HeaderScan>
    ensures result_value { as_step result ≡ mapped scan_of (whole strict (payload strict) s.now 4) }
    ensures settled { Settled (whole strict (payload strict) s.now 4) parents.old parents.new flags.old flags.new fields.old fields.new columns.old columns.new aliases.old aliases.new }
{
    let texts = field_records::texts_at(s, 4);
    let n = header_lists::scan_field_list(s, strict, texts, parents, flags, fields);
    let m = header_lists::scan_column_list(s, strict, n, columns);
    let l = header_lists::scan_alias_list(s, strict, n, flags, m, aliases);
    match gather(strict, s.len(), texts, n, m, l) {
        Ok((scan, next)) => Ok((scan, next)),
        Err(f) => {
            clear(parents, flags, fields, columns, aliases);
            Err(f)
        }
    }
}

// What was read of a payload that ends at `end`, from what was read of its parts.
fn gather(
    strict: bool,
    end: usize,
    texts: Step<HeaderTexts>,
    fields: Step<u64>,
    columns: Step<u64>,
    aliases: Step<u64>,
) -> Step<HeaderScan>
    ensures { as_step result ≡ closed strict end (gathered (as_step texts) (as_step fields) (as_step columns) (as_step aliases)) }
{
    let (texts, fields_at) = texts?;
    let (l, past) = aliases?;
    let next = frames::close_frame(strict, past, end)?;
    let lists = HeaderLists {
        fields_at,
        fields: header_lists::number_in(fields),
        columns: header_lists::number_in(columns),
        aliases: l as usize,
    };
    Ok((HeaderScan { texts, lists }, next))
}

// All zero.
pub fn clear(
    parents: &mut [u16; rows::MOST_FIELDS],
    flags: &mut [u64; rows::MOST_FIELDS],
    fields: &mut [u64],
    columns: &mut [u64],
    aliases: &mut [u64],
)
    ensures parents_after { parents.new ≡ replicate most_fields 0 }
    ensures flags_after { flags.new ≡ replicate most_fields 0 }
    ensures fields_after { fields.new ≡ replicate (length fields.old) 0 }
    ensures columns_after { columns.new ≡ replicate (length columns.old) 0 }
    ensures aliases_after { aliases.new ≡ replicate (length aliases.old) 0 }
{
    *parents = [0u16; rows::MOST_FIELDS];
    *flags = [0u64; rows::MOST_FIELDS];
    clear_table(fields);
    clear_table(columns);
    clear_table(aliases);
}

fn clear_table(table: &mut [u64])
    ensures { table.new ≡ replicate (length table.old) 0 }
{
    table.fill(0);
}
