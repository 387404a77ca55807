// Writes a header from its tables.
#![tactic(auto)]

mod write;

ghost use Rattle.writing.specs.Answers.{Answered, header_to_write};

use header::Refusal;
use records::HeaderTexts;
use writing::WriteAnswer;

// Writes the header of lent tables, whose strings stand in the lent strings, over the first of the lent bytes. What is refused leaves these as
// they were; that there is too little room is found last.
pub fn write_header(
    strings: &[u8],
    texts: HeaderTexts,
    fields: &[u64],
    columns: &[u64],
    aliases: &[u64],
    out: &mut [u8],
) -> WriteAnswer
    ensures { Answered 1 (header_to_write strings.now texts fields.now columns.now aliases.now) out.old out.new result }
{
    let long = header_check::header_long(texts, fields, columns, aliases);
    if verdicts::CEILING < long {
        return Err(Refusal {
            envelope: 1,
            number: 1,
        });
    }
    let number = header_check::header_number(strings, texts, fields, columns, aliases);
    if number != 0 {
        return Err(Refusal {
            envelope: 1,
            number,
        });
    }
    if out.len() < long {
        return Err(Refusal {
            envelope: 1,
            number: 20,
        });
    }
    write::write_envelope(strings, texts, fields, columns, aliases, out);
    Ok(long)
}
