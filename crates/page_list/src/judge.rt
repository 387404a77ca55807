// The verdict on a page list, before any row of it is written.
ghost use Rattle.envelope.specs.Envelope.{envelope};
ghost use Rattle.std.specs.Prelude.{◌≡◌, take};
ghost use Rattle.rows.specs.Words.{most_fields};
ghost use Rattle.rows.specs.Tables.{columns_in};
ghost use Rattle.column_pages.specs.ColumnPages.{payload};
ghost use Rattle.column_pages.specs.Answers.{bits_in};
ghost use Rattle.page_list.specs.PageList.{total_fault};
ghost use Rattle.page_list.specs.Judged.{summed_by, Judges};

use crate::{Judged, SUPPORTED};
use rows::FieldNumber;
use wire::{Fault, Kind};

// The verdict on an envelope beside a header: `parents` and `flags` have a word of each field, `rows` has a row of each of n columns.
pub fn judge(
    e: &[u8],
    parents: &[u16],
    flags: &[u64],
    rows: &[u64],
    n: usize,
    entries: u64,
    file: u64,
) -> Result<Judged, Fault>
    ensures { Judges file (bits_in rows.now n) e.now (summed_by entries (columns_in rows.now n) (take most_fields parents.now) flags.now (envelope 1 (payload file (bits_in rows.now n)) e.now)) result }
{
    let opening = envelope::open_envelope(e, SUPPORTED)?;
    let s = frames::up_to(e, opening.stop);
    let sums = column_pages::scan_payload(s, opening.strict, rows, n, file);
    let (count, _) = sums.pages?;
    let elements = sums.elements;
    match totals::totals_of(entries, parents, flags, rows, n, &elements[..n]) {
        None => Ok(Judged {
            stop: opening.stop,
            strict: opening.strict,
            pages: count as usize,
        }),
        Some(field) => Err(total_fault(field)),
    }
}

// The refusal of a field whose totals do not agree with the cluster's entries.
fn total_fault(field: FieldNumber) -> Fault
    ensures { result ≡ total_fault field.0 }
{
    Fault {
        number: 19,
        place: 0,
        kind: Kind::Total,
        list: 0,
        item: field.0 as usize,
    }
}
