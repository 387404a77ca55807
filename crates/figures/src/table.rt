// What is printed: a line for each column, the counts of lists, and the lists that were refused.
use figure_rules::FIGURE_WORDS;
use figure_table::FigureRow;
use rows::ColumnNumber;
use std::io;

// The lines of all columns, with their heading; nothing for a header that is refused. The header's bytes are made as they print.
pub fn print(rt: &impl Print, header: &mut [u8], words: &[u64]) -> io::Result<()> {
    let mut fields = [0u64; rows::FULL_FIELDS];
    let mut columns = [0u64; rows::FULL_COLUMNS];
    let mut aliases = [0u64; rows::FULL_ALIASES];
    match header_reader::read_header(header, &mut fields, &mut columns, &mut aliases) {
        Ok(tables) => {
            rt.println(" column   type    pages        elements    stored bytes checksums field")?;
            figure_table::make_printable(header);
            print_rows(rt, header, &fields, &columns, words, tables.columns as u64)
        }
        Err(_) => Ok(()),
    }
}

fn print_rows(
    rt: &impl Print,
    header: &[u8],
    fields: &[u64],
    columns: &[u64],
    words: &[u64],
    count: u64,
) -> io::Result<()> {
    for i in 0..count {
        print_row(rt, header, fields, columns, words, i)?;
    }
    Ok(())
}

// The line of column i ends with the number and the name of its field.
fn print_row(
    rt: &impl Print,
    header: &[u8],
    fields: &[u64],
    columns: &[u64],
    words: &[u64],
    i: u64,
) -> io::Result<()> {
    let column = column_rows::column_row(columns, ColumnNumber(i));
    let field = column.field;
    let row = field_rows::field_row(fields, field);
    let texts = row.texts;
    let name = texts.name;
    let figures = FigureRow {
        column: i,
        column_type: column.column_type,
        pages: rows::word(words, FIGURE_WORDS, i, 0),
        elements: rows::word(words, FIGURE_WORDS, i, 1),
        stored: rows::word(words, FIGURE_WORDS, i, 2),
        checksums: rows::word(words, FIGURE_WORDS, i, 3),
        field: field.0,
    };
    let mut out = [0u8; figure_table::ROW_BYTES];
    let length = figure_table::write_row(figures, &mut out);
    rt.write_all(&out[..length])?;
    rt.write_all(reader::text_of(header, name.place, name.len))?;
    rt.println("")
}

pub fn print_counts(rt: &impl Print, counts: &[u64; 2]) -> io::Result<()> {
    let accepted = counts[0];
    let refused = counts[1];
    println!(rt; "lists: {accepted} accepted, {refused} refused")
}

// The lists that were refused, counted from 1, with their envelopes and numbers.
pub fn print_refused(rt: &impl Print, codes: &[u64]) -> io::Result<()> {
    for i in 0..codes.len() {
        print_refusal(rt, i as u64, codes[i])?;
    }
    Ok(())
}

fn print_refusal(rt: &impl Print, before: u64, code: u64) -> io::Result<()> {
    if code == 0 {
        return Ok(());
    }
    let number = std::num::wrapping_add_u64(before, 1);
    let envelope = code / 256;
    let rule = code % 256;
    println!(rt; "list {number}: {envelope} refused {rule}")
}
