// The three lists of a payload: the verdict on each, and its rows in tables that are lent. Each is told what was read before it, and
// hands a refusal on.
#![tactic(auto)]

ghost use Rattle.std.specs.Prelude.{◌≡◌, ◌≤◌, length, take};
ghost use Rattle.rows.specs.Words.{most_fields};
ghost use Rattle.wire.specs.Reading.{counted};
ghost use Rattle.wire.specs.Answers.{as_step};
ghost use Rattle.header.specs.Header.{field_items, column_items, alias_items};
ghost use Rattle.header_lists.specs.Next.{fields_next, columns_next, aliases_next, number_in};
ghost use Rattle.header_lists.specs.Kept.{Kept, lay_parents, lay_flags, lay_fields, lay_columns, lay_aliases};

use frames::ListHead;
use records::HeaderTexts;
use rows::{ColumnNumber, FieldNumber};
use wire::Step;

// The verdict on the fields of a list at `list`, whose head was read; where they are accepted, `parents` and `flags` have those of
// each, and `rows` has the row of each for which there is room.
fn scan_fields(
    s: &[u8],
    strict: bool,
    list: usize,
    head: ListHead,
    parents: &mut [u16],
    flags: &mut [u64],
    rows: &mut [u64],
) -> Step<u64>
    requires { (head.count ≤ most_fields) × (head.count ≤ length parents.old) × (head.count ≤ length flags.old) }
    ensures result_value { as_step result ≡ counted (field_items s.now strict list head) }
    ensures kept { Kept lay_parents (field_items s.now strict list head) parents.old parents.new }
    ensures kept_2 { Kept lay_flags (field_items s.now strict list head) flags.old flags.new }
    ensures kept_3 { Kept lay_fields (field_items s.now strict list head) rows.old rows.new }
{
    let count = head.count;
    let mut at = head.start;
    for i in 0..count {
        match field_records::field_record(s, strict, at, count as u64) {
            Ok((row, next)) => {
                let row_head = row.head;
                let parent = row_head.parent;
                parents[i] = parent.0 as u16;
                flags[i] = row_head.flags;
                field_rows::put_field(rows, FieldNumber(i as u64), row, 0);
                at = next;
            }
            Err(f) => return Err(wire::fault_in_item(list, i, f)),
        }
    }
    Ok((count as u64, at))
}

// The verdict on the list of fields after the texts: how many they are, and the place after their frame.
pub fn scan_field_list(
    s: &[u8],
    strict: bool,
    texts: Step<HeaderTexts>,
    parents: &mut [u16; rows::MOST_FIELDS],
    flags: &mut [u64; rows::MOST_FIELDS],
    rows: &mut [u64],
) -> Step<u64>
    ensures result_value { as_step result ≡ counted (fields_next strict s.now (as_step texts)) }
    ensures kept { Kept lay_parents (fields_next strict s.now (as_step texts)) parents.old parents.new }
    ensures kept_2 { Kept lay_flags (fields_next strict s.now (as_step texts)) flags.old flags.new }
    ensures kept_3 { Kept lay_fields (fields_next strict s.now (as_step texts)) rows.old rows.new }
{
    let (_, at) = texts?;
    let (head, stop) = list_frames::list_head_at_most(s, at, rows::MOST_FIELDS)?;
    let scanned = scan_fields(
        frames::up_to(s, stop),
        strict,
        at,
        head,
        parents,
        flags,
        rows,
    );
    list_frames::close_list(scanned, strict, at, head.count, stop)
}

// The verdict on the columns of a list at `list`, whose head was read; where they are accepted, `rows` has the row of each for which
// there is room.
fn scan_columns(
    s: &[u8],
    strict: bool,
    list: usize,
    head: ListHead,
    fields: u64,
    rows: &mut [u64],
) -> Step<u64>
    ensures result_value { as_step result ≡ counted (column_items s.now strict list head fields) }
    ensures kept { Kept lay_columns (column_items s.now strict list head fields) rows.old rows.new }
{
    let count = head.count;
    let mut at = head.start;
    for i in 0..count {
        match column_records::column_record(s, strict, at, fields) {
            Ok((row, next)) => {
                column_rows::put_column(rows, ColumnNumber(i as u64), row);
                at = next;
            }
            Err(f) => return Err(wire::fault_in_item(list, i, f)),
        }
    }
    Ok((count as u64, at))
}

// The verdict on the list of columns after that of fields: how many they are, and the place after their frame.
pub fn scan_column_list(s: &[u8], strict: bool, fields: Step<u64>, rows: &mut [u64]) -> Step<u64>
    ensures result_value { as_step result ≡ counted (columns_next strict s.now (as_step fields)) }
    ensures kept { Kept lay_columns (columns_next strict s.now (as_step fields)) rows.old rows.new }
{
    let (n, at) = fields?;
    let (head, stop) = list_frames::list_head_at_most(s, at, rows::MOST_COLUMNS)?;
    let scanned = scan_columns(frames::up_to(s, stop), strict, at, head, n, rows);
    list_frames::close_list(scanned, strict, at, head.count, stop)
}

// The verdict on the aliases of a list at `list`, whose head was read; where they are accepted, `rows` has the row of each for which
// there is room.
fn scan_aliases(
    s: &[u8],
    strict: bool,
    list: usize,
    head: ListHead,
    flags: &[u64],
    columns: u64,
    rows: &mut [u64],
) -> Step<u64>
    ensures result_value { as_step result ≡ counted (alias_items s.now strict list head flags.now columns) }
    ensures kept { Kept lay_aliases (alias_items s.now strict list head flags.now columns) rows.old rows.new }
{
    let count = head.count;
    let mut at = head.start;
    for i in 0..count {
        match column_records::alias_record(s, strict, at, flags, columns) {
            Ok((row, next)) => {
                column_rows::put_alias(rows, i, row);
                at = next;
            }
            Err(f) => return Err(wire::fault_in_item(list, i, f)),
        }
    }
    Ok((count as u64, at))
}

// The number of a step, 0 where it was refused.
pub fn number_in(step: Step<u64>) -> usize
    ensures { result ≡ number_in (as_step step) }
{
    match step {
        Ok((n, _)) => n as usize,
        Err(_) => 0,
    }
}

// The first words, as many as there are of n.
fn first_words(words: &[u64], n: usize) -> &[u64]
    ensures { result.now ≡ take n words.now }
{
    if n <= words.len() {
        return &words[..n];
    }
    words
}

// The verdict on the list of aliases after the other two, where `flags` has those of the fields: how many they are, and the place
// after their frame.
pub fn scan_alias_list(
    s: &[u8],
    strict: bool,
    fields: Step<u64>,
    flags: &[u64],
    columns: Step<u64>,
    rows: &mut [u64],
) -> Step<u64>
    ensures result_value { as_step result ≡ counted (aliases_next strict s.now flags.now (as_step fields) (as_step columns)) }
    ensures kept { Kept lay_aliases (aliases_next strict s.now flags.now (as_step fields) (as_step columns)) rows.old rows.new }
{
    let (m, at) = columns?;
    let (head, stop) = list_frames::list_head_at_most(s, at, rows::MOST_ALIASES)?;
    let of_fields = first_words(flags, number_in(fields));
    let inner = frames::up_to(s, stop);
    let scanned = scan_aliases(inner, strict, at, head, of_fields, m, rows);
    list_frames::close_list(scanned, strict, at, head.count, stop)
}
