// A field's content.
ghost use Rattle.std.specs.Prelude.{◌≡◌};
ghost use Rattle.records.specs.Records.{repetition, field_head, field_texts, field};
ghost use Rattle.wire.specs.Answers.{as_step};

use records::tested;
use rows::{FieldHead, FieldNumber, FieldRow, FieldTexts};
use wire::Step;

// A field's repetition, which is there where its flags say so.
fn repetition_at(s: &[u8], at: usize, flags: u64) -> Step<u64>
    ensures { as_step result ≡ repetition flags s.now at }
{
    if flags % 2 == 1 {
        return wire::number_8(s, at);
    }
    Ok((0, at))
}

// What a field's record has before its strings, where the header has `fields` fields.
fn field_head_at(s: &[u8], at: usize, fields: u64) -> Step<FieldHead>
    ensures { as_step result ≡ field_head fields s.now at }
{
    let (field_version, type_version_at) = wire::number_4(s, at)?;
    let (type_version, parent_at) = wire::number_4(s, type_version_at)?;
    let (parent, role_at) = tested::number_below(s, parent_at, fields)?;
    let (role, flags_at) = tested::listed_2(s, role_at, 4)?;
    let (flags, repetition_place) = tested::listed_2(s, flags_at, 3)?;
    let (repetition, next) = repetition_at(s, repetition_place, flags)?;
    let head = FieldHead {
        field_version,
        type_version,
        parent: FieldNumber(parent),
        role,
        flags,
        repetition,
    };
    Ok((head, next))
}

fn field_texts_at(s: &[u8], at: usize) -> Step<FieldTexts>
    ensures { as_step result ≡ field_texts s.now at }
{
    let (name, type_name_at) = text::string_at(s, at)?;
    let (type_name, type_alias_at) = text::string_at(s, type_name_at)?;
    let (type_alias, description_at) = text::string_at(s, type_alias_at)?;
    let (description, next) = text::string_at(s, description_at)?;
    let texts = FieldTexts {
        name,
        type_name,
        type_alias,
        description,
    };
    Ok((texts, next))
}

// A field's content, where the header has `fields` fields.
pub fn field_at(s: &[u8], at: usize, fields: u64) -> Step<FieldRow>
    ensures { as_step result ≡ field fields s.now at }
{
    let (head, texts_at) = field_head_at(s, at, fields)?;
    let (texts, next) = field_texts_at(s, texts_at)?;
    Ok((FieldRow { head, texts }, next))
}
