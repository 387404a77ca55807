// The cells of a row, stored one after the other.
ghost use Rattle.std.specs.Prelude.{◌≡◌, ◌+◌, ◌-◌, ◌≤◌, length};
ghost use Rattle.decimals.specs.Decimal.{decimal};
ghost use Rattle.stores.specs.Stored.{Stored};
ghost use Rattle.figure_table.specs.Table.{cell, type_text, row_text};

use crate::FigureRow;

// How many places are left before so many digits.
fn places_left(places: usize, length: usize) -> usize
    ensures { result ≡ places - length }
{
    if length < places {
        return places - length;
    }
    0
}

// The cell of a number.
fn store_decimal(places: usize, n: u64, at: usize, out: &mut [u8]) -> usize
    ensures stores { Stored out.old at (cell places (decimal n)) out.new result }
    ensures few { length (cell places (decimal n)) ≤ 21 + places }
{
    let digits = decimals::digits_of(n);
    let bytes = digits.bytes;
    let len = digits.len;
    let spaced = stores::store_bytes(b" ", at, out);
    let aligned = listing_lines::store_spaces(places_left(places, len), spaced, out);
    stores::store_bytes(&bytes[..len], aligned, out)
}

// The cell of a column type.
fn store_type(column_type: u64, at: usize, out: &mut [u8]) -> usize
    ensures stores { Stored out.old at (type_text column_type) out.new result }
    ensures few { length (type_text column_type) ≤ 7 }
{
    let mut digits = [0u8; 16];
    let len = io::hex(column_type % 65536, 4, &mut digits);
    let marked = stores::store_bytes(b" 0x", at, out);
    stores::store_bytes(&digits[..len], marked, out)
}

pub fn store_row(row: FigureRow, out: &mut [u8]) -> usize
    ensures stores { Stored out.old 0 (row_text row) out.new result }
    ensures few { length (row_text row) ≤ 192 }
{
    let column = store_decimal(6, row.column, 0, out);
    let column_type = store_type(row.column_type, column, out);
    let pages = store_decimal(8, row.pages, column_type, out);
    let elements = store_decimal(15, row.elements, pages, out);
    let stored = store_decimal(15, row.stored, elements, out);
    let checksums = store_decimal(9, row.checksums, stored, out);
    let field = store_decimal(5, row.field, checksums, out);
    stores::store_bytes(b" ", field, out)
}
