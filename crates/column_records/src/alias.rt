// An alias's content.
ghost use Rattle.std.specs.Prelude.{◌≡◌};
ghost use Rattle.wire.specs.Reading.{tested};
ghost use Rattle.wire.specs.Answers.{as_step};
ghost use Rattle.records.specs.Records.{aliasable, alias};

use records::tested;
use rows::{AliasRow, ColumnNumber, FieldNumber};
use wire::Step;

// The verdict on an alias's field: below the count of fields, and one that has the alias flag; `flags` has the flags of each field.
fn aliasable(flags: &[u64], field: FieldNumber) -> u16
    ensures { result ≡ aliasable flags.now field.0 }
{
    let f = field.0 as usize;
    if f < flags.len() {
        if flags[f] / 2 % 2 == 1 {
            return 0;
        }
        return 14;
    }
    14
}

fn field_at(s: &[u8], at: usize, flags: &[u64]) -> Step<u64>
    ensures { as_step result ≡ tested 4 (aliasable flags.now) s.now at }
{
    let (field, next) = wire::number_4(s, at)?;
    let verdict = aliasable(flags, FieldNumber(field));
    wire::judge(field, at, next, verdict)
}

// An alias's content: a physical column, one of `columns`, and a field that has the alias flag.
pub fn alias_at(s: &[u8], at: usize, flags: &[u64], columns: u64) -> Step<AliasRow>
    ensures { as_step result ≡ alias flags.now columns s.now at }
{
    let (column, field_place) = tested::number_below(s, at, columns)?;
    let (field, next) = field_at(s, field_place, flags)?;
    Ok((
        AliasRow {
            column: ColumnNumber(column),
            field: FieldNumber(field),
        },
        next,
    ))
}
