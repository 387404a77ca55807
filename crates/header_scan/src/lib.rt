// A header's envelope, read once: the verdict on it, and the rows of its lists in tables of the caller's.
#![tactic(auto)]

mod chain;

ghost use Rattle.std.specs.Prelude.{◌≡◌};
ghost use Rattle.wire.specs.Reading.{mapped};
ghost use Rattle.wire.specs.Answers.{as_step};
ghost use Rattle.envelope.specs.Envelope.{whole};
ghost use Rattle.header.specs.Header.{payload};
ghost use Rattle.header.specs.Tables.{chained, header_of};
ghost use Rattle.header_payload.specs.Answers.{scan_of};
ghost use Rattle.header_payload.specs.Settled.{Settled};

use header_payload::HeaderScan;
use wire::Step;

// The highest minimum version that is read.
const SUPPORTED: u64 = 1;

// The verdict on a header. Where it is accepted, the arrays have in front the parent and the flags of each field, and the tables the
// rows of fields (no dark mark yet), columns and aliases, as far as each has room; where it is refused they are all zero.
pub fn scan_header(
    envelope: &[u8],
    parents: &mut [u16; rows::MOST_FIELDS],
    flags: &mut [u64; rows::MOST_FIELDS],
    fields: &mut [u64],
    columns: &mut [u64],
    aliases: &mut [u64],
) -> Step<HeaderScan>
    ensures result_value { as_step result ≡ mapped scan_of (header_of envelope.now) }
    ensures settled { Settled (header_of envelope.now) parents.old parents.new flags.old flags.new fields.old fields.new columns.old columns.new aliases.old aliases.new }
{
    match envelope::open_envelope(envelope, SUPPORTED) {
        Ok(opening) => scan_chained(
            frames::up_to(envelope, opening.stop),
            opening.strict,
            parents,
            flags,
            fields,
            columns,
            aliases,
        ),
        Err(f) => {
            header_payload::clear(parents, flags, fields, columns, aliases);
            Err(f)
        }
    }
}

// The verdict on a payload, with its parent chains.
fn scan_chained(
    s: &[u8],
    strict: bool,
    parents: &mut [u16; rows::MOST_FIELDS],
    flags: &mut [u64; rows::MOST_FIELDS],
    fields: &mut [u64],
    columns: &mut [u64],
    aliases: &mut [u64],
) -> Step<HeaderScan>
    ensures result_value { as_step result ≡ mapped scan_of (chained s.now (whole strict (payload strict) s.now 4)) }
    ensures settled { Settled (chained s.now (whole strict (payload strict) s.now 4)) parents.old parents.new flags.old flags.new fields.old fields.new columns.old columns.new aliases.old aliases.new }
{
    let (scan, next) = header_payload::scan_payload(
        s, strict, parents, flags, fields, columns, aliases,
    )?;
    let lists = scan.lists;
    let all_parents = *parents;
    match parents::endless_chain(all_parents, lists.fields) {
        None => Ok((scan, next)),
        Some(field) => {
            header_payload::clear(parents, flags, fields, columns, aliases);
            Err(chain::chain_fault(s, lists.fields_at, field))
        }
    }
}
