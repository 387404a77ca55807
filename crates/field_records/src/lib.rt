// The records of a header's fields, each in its frame; and what stands before the header's lists.
#![tactic(auto)]

mod field;

ghost use Rattle.std.specs.Prelude.{◌≡◌};
ghost use Rattle.frames.specs.Frames.{record_of};
ghost use Rattle.records.specs.Records.{field, texts};
ghost use Rattle.wire.specs.Answers.{as_step};

use field::field_at;
use records::HeaderTexts;
use rows::FieldRow;
use wire::Step;

// A field in its record frame, where the header has `fields` fields.
// (The three steps of a record's frame: with the content as a closure they would be no fewer.)
pub fn field_record(s: &[u8], strict: bool, at: usize, fields: u64) -> Step<FieldRow>
    ensures { as_step result ≡ record_of strict (field fields) s.now at }
{
    let (start, stop) = frames::record_head(s, at)?;
    let (row, past) = field_at(frames::up_to(s, stop), start, fields)?;
    let next = frames::close_frame(strict, past, stop)?;
    Ok((row, next))
}

// Feature words, name and description: what stands before the lists.
pub fn texts_at(s: &[u8], at: usize) -> Step<HeaderTexts>
    ensures { as_step result ≡ texts s.now at }
{
    let name_at = envelope::features_at(s, at)?;
    let (name, description_at) = text::string_at(s, name_at)?;
    let (description, next) = text::string_at(s, description_at)?;
    Ok((HeaderTexts { name, description }, next))
}
