// The texts of a table of figures, and the numbers that are handed in for it.
#![tactic(auto)]

mod cells;
mod numerals;

ghost use Rattle.std.specs.Prelude.{◌≡◌};
ghost use Rattle.io.specs.Counts.{IsPrefixLen};
ghost use Rattle.listing.specs.Lines.{shown};
ghost use Rattle.list_report.specs.Printed.{Prints};
ghost use Rattle.figure_table.specs.Table.{row_text};

pub use numerals::number_of;

// A row: a column's number and type, its figures, and the number of its field.
#[derive(Clone, Copy)]
pub struct FigureRow {
    pub column: u64,
    pub column_type: u64,
    pub pages: u64,
    pub elements: u64,
    pub stored: u64,
    pub checksums: u64,
    pub field: u64,
}

// Room for a row whose numbers have 20 digits each.
pub const ROW_BYTES: usize = 192;

// Writes a row over the first of the lent bytes, up to the name of its field, and answers how many bytes it has.
pub fn write_row(row: FigureRow, out: &mut [u8; ROW_BYTES]) -> usize
    ensures prints { Prints (row_text row) out.old out.new result }
    ensures counts { IsPrefixLen result out.new }
{
    cells::store_row(row, out)
}

// Makes bytes as they print in a line: question marks for those that would disturb it.
pub fn make_printable(bytes: &mut [u8])
    ensures { bytes.new ≡ shown bytes.old }
{
    for byte in bytes.iter_mut() {
        *byte = listing_lines::shown_byte(*byte);
    }
}
