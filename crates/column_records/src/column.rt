// A column's content.
ghost use Rattle.std.specs.Prelude.{◌≡◌};
ghost use Rattle.wire.specs.Reading.{tested};
ghost use Rattle.wire.specs.Answers.{as_step};
ghost use Rattle.records.specs.Records.{sized, column};

use records::tested;
use rows::{ColumnRow, FieldNumber};
use wire::Step;

// The verdict on a column's bits: those of its type, where that is known.
pub fn sized(column_type: u64, bits: u64) -> u16
    ensures { result ≡ sized column_type bits }
{
    if column_type::is_known(column_type) {
        if bits == column_type::width_of(column_type) {
            return 0;
        }
        return 13;
    }
    0
}

fn bits_at(s: &[u8], at: usize, column_type: u64) -> Step<u64>
    ensures { as_step result ≡ tested 2 (sized column_type) s.now at }
{
    let (bits, next) = wire::number_2(s, at)?;
    wire::judge(bits, at, next, sized(column_type, bits))
}

// A column's content, where the header has `fields` fields.
pub fn column_at(s: &[u8], at: usize, fields: u64) -> Step<ColumnRow>
    ensures { as_step result ≡ column fields s.now at }
{
    let (column_type, bits_place) = wire::number_2(s, at)?;
    let (bits, field_place) = bits_at(s, bits_place, column_type)?;
    let (field, flags_place) = tested::number_below(s, field_place, fields)?;
    let (flags, next) = tested::listed_4(s, flags_place, 7)?;
    let row = ColumnRow {
        column_type,
        bits,
        field: FieldNumber(field),
        flags,
    };
    Ok((row, next))
}
