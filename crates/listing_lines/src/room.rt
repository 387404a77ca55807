// Whether the lines fit. Each piece is taken off the room that is left, so no sum can grow too large, whatever the lengths and levels are.
ghost use Rattle.std.specs.Prelude.{Some, length};
ghost use Rattle.listing_lines.specs.Line.{line_bytes, lines_in};
ghost use Rattle.listing_lines.specs.Room.{Taken};

use crate::line::{Line, line_of};
use listing::ENTRY_WORDS;

// The room that is left after a line: two spaces per level, the number, the name, the type name; last the two spaces between these and the
// line's end, with the five bytes of the dark word where it applies.
fn line_room(envelope: &[u8], line: Line, room: usize) -> Option<usize>
    ensures { Taken (Some room) (length (line_bytes envelope.now line)) result }
{
    let name = line.name;
    let type_name = line.type_name;
    let level = line.level as usize;
    let digits = decimals::digits_of(line.field);
    let characters = reader::text_of(envelope, name.place, name.len).len();
    let type_characters = reader::text_of(envelope, type_name.place, type_name.len).len();
    let end = if line.dark { 8 } else { 3 };
    room.checked_sub(level)?
        .checked_sub(level)?
        .checked_sub(digits.len)?
        .checked_sub(characters)?
        .checked_sub(type_characters)?
        .checked_sub(end)
}

// The room that is left of `len` bytes after all lines.
pub fn lines_room(
    envelope: &[u8],
    fields: &[u64],
    marks: &[u8],
    entries: &[u64],
    len: usize,
) -> Option<usize>
    ensures { Taken (Some len) (length (lines_in envelope.now fields.now marks.now entries.now)) result }
{
    let mut room = len;
    for i in 0..entries.len() / ENTRY_WORDS {
        room = line_room(envelope, line_of(fields, marks, entries, i), room)?;
    }
    Some(room)
}
