// A header's fields as a tree that people can read.
#![tactic(auto)]

ghost use Rattle.std.specs.Prelude.{◌≡◌, length};
ghost use Rattle.numbers.specs.Rows.{flat};
ghost use Rattle.rows.specs.Tables.{field_row};
ghost use Rattle.listing.specs.Order.{order_of};
ghost use Rattle.listing.specs.Lines.{entry_line, marked};
ghost use Rattle.listing.specs.Answers.{fitted, placed, Answered};

use listing::ListAnswer;

// Lists the fields of a header, a line each, over the first of the lent bytes: 20 where they are too few. What is refused leaves these as they
// were.
pub fn list_fields(envelope: &[u8], out: &mut [u8]) -> ListAnswer
    ensures { Answered envelope.now out.old out.new result }
{
    let mut parents = [0u16; rows::MOST_FIELDS];
    let mut flags = [0u64; rows::MOST_FIELDS];
    let mut field_rows = [0u64; rows::FULL_FIELDS];
    let mut column_rows = [0u64; rows::FULL_COLUMNS];
    let mut alias_rows = [0u64; rows::FULL_ALIASES];
    match header_scan::scan_header(
        envelope,
        &mut parents,
        &mut flags,
        &mut field_rows,
        &mut column_rows,
        &mut alias_rows,
    ) {
        Ok((scan, _)) => {
            let lists = scan.lists;
            let n = lists.fields;
            let marks = parents::dark_marks(&parents, n, &column_rows, lists.columns);
            list_rows(envelope, &parents, n, &field_rows, &marks, out)
        }
        Err(f) => Err(f.number),
    }
}

// Lists n fields whose parents, rows and dark marks these are: first their order, then their lines.
fn list_rows(
    envelope: &[u8],
    parents: &[u16; rows::MOST_FIELDS],
    n: usize,
    fields: &[u64],
    marks: &[u8],
    out: &mut [u8],
) -> ListAnswer
    ensures answers { result ≡ fitted (length out.old) (flat (entry_line envelope.now (field_row fields.now) (marked marks.now)) (order_of parents.now n)) }
    ensures leaves { out.new ≡ placed out.old (flat (entry_line envelope.now (field_row fields.now) (marked marks.now)) (order_of parents.now n)) }
{
    let mut entries = [0u64; field_order::ORDER_WORDS];
    let count = field_order::order_fields(parents, n, &mut entries);
    let words = listing::ENTRY_WORDS * count;
    listing_lines::write_lines(envelope, fields, marks, &entries[..words], out)
}
