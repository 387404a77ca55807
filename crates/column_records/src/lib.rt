// The records of a header's columns and aliases, each in its frame.
#![tactic(auto)]

mod alias;
mod column;

ghost use Rattle.std.specs.Prelude.{◌≡◌};
ghost use Rattle.frames.specs.Frames.{record_of};
ghost use Rattle.records.specs.Records.{column, alias};
ghost use Rattle.wire.specs.Answers.{as_step};

use alias::alias_at;
use column::column_at;
pub use column::sized;
use rows::{AliasRow, ColumnRow};
use wire::Step;

// A column in its record frame, where the header has `fields` fields.
// (The three steps of a record's frame: with the content as a closure they would be no fewer.)
pub fn column_record(s: &[u8], strict: bool, at: usize, fields: u64) -> Step<ColumnRow>
    ensures { as_step result ≡ record_of strict (column fields) s.now at }
{
    let (start, stop) = frames::record_head(s, at)?;
    let (row, past) = column_at(frames::up_to(s, stop), start, fields)?;
    let next = frames::close_frame(strict, past, stop)?;
    Ok((row, next))
}

// An alias in its record frame; `flags` has the flags of each field, and there are `columns` columns.
pub fn alias_record(
    s: &[u8],
    strict: bool,
    at: usize,
    flags: &[u64],
    columns: u64,
) -> Step<AliasRow>
    ensures { as_step result ≡ record_of strict (alias flags.now columns) s.now at }
{
    let (start, stop) = frames::record_head(s, at)?;
    let (alias_row, past) = alias_at(frames::up_to(s, stop), start, flags, columns)?;
    let next = frames::close_frame(strict, past, stop)?;
    Ok((alias_row, next))
}
