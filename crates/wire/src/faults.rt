// Refusals.
ghost use Rattle.std.specs.Prelude.{◌≡◌};
ghost use Rattle.wire.specs.Reading.{fault, in_item};

use crate::{Fault, Kind};

// A refusal that no list is around.
pub fn fault_at(number: u16, kind: Kind, place: usize) -> Fault
    ensures { result ≡ fault number kind place }
{
    Fault {
        number,
        place,
        kind,
        list: 0,
        item: 0,
    }
}

// A refusal inside item `item` of the list at `list`.
pub fn fault_in_item(list: usize, item: usize, f: Fault) -> Fault
    ensures { result ≡ in_item list item f }
{
    if f.list == 0 {
        let kind = f.kind;
        return Fault {
            number: f.number,
            place: f.place,
            kind,
            list,
            item,
        };
    }
    f
}
