// What is refused where a parent chain never ends: the record of the lowest field whose chain does not.
ghost use Rattle.std.specs.Prelude.{◌≡◌, ◌+◌, ◌≤◌, length};
ghost use Rattle.header.specs.Tables.{record_at, chain_fault};

use rows::FieldNumber;
use wire::{Fault, Kind};

// The place of record k of those that stand one after the other from `start` on.
fn record_at(s: &[u8], start: usize, k: u64) -> usize
    requires { start ≤ length s.now }
    ensures { result ≡ record_at s.now start k }
{
    let mut at = start;
    for done in 0..k {
        at += numbers::little_4(s, at) as usize;
    }
    at
}

// The refusal of a field of the list at `list`, whose chain never ends.
pub fn chain_fault(s: &[u8], list: usize, field: FieldNumber) -> Fault
    requires { list + 8 ≤ length s.now }
    ensures { result ≡ chain_fault s.now list field.0 }
{
    let place = record_at(s, list + 8, field.0);
    Fault {
        number: 15,
        place,
        kind: Kind::Chain,
        list,
        item: field.0 as usize,
    }
}
