// Writes a footer from its tables.
#![tactic(auto)]

mod lists;
mod stored_records;
mod write;

ghost use Rattle.header.specs.Beside.{read};
ghost use Rattle.writing.specs.Rows.{footer_rows};
ghost use Rattle.writing.specs.Footer.{footer_piece};
ghost use Rattle.writing.specs.Answers.{Answered, footer_to_write};

use header::Refusal;
use writing::WriteAnswer;

// Writes the footer of lent tables (5 words to a cluster, 2 to a metadata link) beside a header, and answers.
pub fn write_footer(
    header: &[u8],
    file_length: u64,
    clusters: &[u64],
    metadata: &[u64],
    out: &mut [u8],
) -> WriteAnswer
    ensures { Answered 2 (footer_to_write header.now file_length clusters.now metadata.now) out.old out.new result }
{
    let schema = header_schema::read_schema(header);
    let verdict = schema.verdict;
    match verdict {
        Ok(()) => { write_beside(schema.checksum, file_length, clusters, metadata, out) }
        Err(f) => Err(Refusal {
            envelope: 1,
            number: f.number,
        }),
    }
}

// Writes the footer of lent tables beside a header with this checksum. Room is the last to be tested.
fn write_beside(
    checksum: u64,
    file_length: u64,
    clusters: &[u64],
    metadata: &[u64],
    out: &mut [u8],
) -> WriteAnswer
    ensures { Answered 2 (read (footer_piece checksum file_length (footer_rows clusters.now metadata.now))) out.old out.new result }
{
    let number = footer_check::footer_number(checksum, file_length, clusters, metadata);
    if number != 0 {
        return Err(Refusal {
            envelope: 2,
            number,
        });
    }
    let long = footer_check::footer_long(clusters, metadata);
    if out.len() < long {
        return Err(Refusal {
            envelope: 2,
            number: 20,
        });
    }
    write::write_envelope(checksum, clusters, metadata, out);
    Ok(long)
}
