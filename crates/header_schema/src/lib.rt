// What the readers of the other envelopes take from a header.
#![tactic(auto)]

ghost use Rattle.std.specs.Prelude.{◌≡◌};
ghost use Rattle.envelope.specs.Envelope.{checksum_of};
ghost use Rattle.header.specs.Tables.{header_of};
ghost use Rattle.header_schema.specs.Schema.{schema_of};

use wire::Fault;

// The checksum of a header, how many fields and columns it has, the parent and
// the flags of each field, and the row of each column (type, bits, field, flags). All zero where it is refused.
#[derive(Clone, Copy)]
pub struct Schema {
    pub verdict: Result<(), Fault>,
    pub checksum: u64,
    pub fields: usize,
    pub columns: usize,
    pub parents: [u16; rows::MOST_FIELDS],
    pub flags: [u64; rows::MOST_FIELDS],
    pub column_rows: [u64; rows::FULL_COLUMNS],
}

// Reads a header with no table lent. No row of a field or of an alias is asked for.
pub fn read_schema(envelope: &[u8]) -> Schema
    ensures { result ≡ schema_of (checksum_of envelope.now) (header_of envelope.now) }
{
    let mut parents = [0u16; rows::MOST_FIELDS];
    let mut flags = [0u64; rows::MOST_FIELDS];
    let mut no_fields = [0u64; 0];
    let mut column_rows = [0u64; rows::FULL_COLUMNS];
    let mut no_aliases = [0u64; 0];
    match header_scan::scan_header(
        envelope,
        &mut parents,
        &mut flags,
        &mut no_fields,
        &mut column_rows,
        &mut no_aliases,
    ) {
        Ok((scan, _)) => {
            let lists = scan.lists;
            let checksum = numbers::little_4(envelope, envelope.len() - 4);
            Schema {
                verdict: Ok(()),
                checksum,
                fields: lists.fields,
                columns: lists.columns,
                parents,
                flags,
                column_rows,
            }
        }
        Err(f) => Schema {
            verdict: Err(f),
            checksum: 0,
            fields: 0,
            columns: 0,
            parents,
            flags,
            column_rows,
        },
    }
}
