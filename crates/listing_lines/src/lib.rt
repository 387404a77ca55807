// The lines of a listing, written into lent bytes.
#![tactic(auto)]

mod line;
mod room;
mod store;

ghost use Rattle.std.specs.Prelude.{◌≡◌, length};
ghost use Rattle.listing.specs.Answers.{fitted, placed};
ghost use Rattle.listing_lines.specs.Line.{lines_in};

use listing::ListAnswer;
pub use store::{shown_byte, store_spaces};

// Writes the lines of the entries over the first of the lent bytes: 20 where they are too few, and nothing is written then.
pub fn write_lines(
    envelope: &[u8],
    fields: &[u64],
    marks: &[u8],
    entries: &[u64],
    out: &mut [u8],
) -> ListAnswer
    ensures answers { result ≡ fitted (length out.old) (lines_in envelope.now fields.now marks.now entries.now) }
    ensures leaves { out.new ≡ placed out.old (lines_in envelope.now fields.now marks.now entries.now) }
{
    match room::lines_room(envelope, fields, marks, entries, out.len()) {
        Some(_) => {
            let written = store::store_lines(envelope, fields, marks, entries, out);
            Ok(written)
        }
        None => Err(20),
    }
}
