// The calls that a case can ask for, each with the tables and the room that it is lent.
ghost use Rattle.std.specs.Prelude.{◌≡◌, length};
ghost use Rattle.io.specs.Counts.{IsPrefixLen};

use std::io;

// A case is fifteen numbers of eight bytes each and then the strings or the header, and the words of three tables. The numbers, by their
// places: what is called, 1 a header, 2 a footer, 3 a page list.
const CALLED: usize = 0;

// Place and length of the name and of the description; or the length of the file, and the entries of the cluster.
const NAME_PLACE: usize = 1;

const NAME_LENGTH: usize = 2;

const DESCRIPTION_PLACE: usize = 3;

const DESCRIPTION_LENGTH: usize = 4;

const FILE_LENGTH: usize = 1;

const ENTRIES: usize = 2;

// How many words are lent of each table, and how many bytes of it the case has: their words stand in the table again and again.
const LENT: usize = 5;

const LENT_SECOND: usize = 6;

const LENT_THIRD: usize = 7;

const GIVEN: usize = 8;

const GIVEN_SECOND: usize = 9;

const GIVEN_THIRD: usize = 10;

// How many bytes are lent, and words of the result.
const ROOM: usize = 11;

const RESULT: usize = 12;

// How many zeros the strings or the header are instead of what the case has, if any; and how many bytes the case has.
const ZEROS: usize = 13;

const FIRST_PART: usize = 14;

// Where the strings or the header start.
const PARTS: usize = 120;

// More words are not shown.
const SHOWN_WORDS: usize = 128;

pub fn call(rt: &impl Print, bytes: &[u8]) -> io::Result<()> {
    let mut case = [0u64; 15];
    cases::take_words(bytes, &mut case);
    let first = reader::text_of(bytes, PARTS, case[FIRST_PART] as usize);
    if case[ZEROS] == 0 {
        call_with(rt, case, first, bytes)
    } else {
        let all = cases::filled(0);
        call_with(
            rt,
            case,
            reader::text_of(&all, 0, case[ZEROS] as usize),
            bytes,
        )
    }
}

// Writes into lent bytes that are EE, with a result of nines.
fn call_with(rt: &impl Print, case: [u64; 15], first: &[u8], bytes: &[u8]) -> io::Result<()> {
    let mut lent = cases::filled(238);
    let room = cases::fit_bytes(case[ROOM] % 4294967296, &lent);
    let out = &mut lent[..room];
    let mut nines = [9u64; 4];
    let words = cases::fit(case[RESULT], &nines);
    let result = &mut nines[..words];
    let code = write(case, first, bytes, out, result);
    let accepted = cases::show_answer(rt, code, &[], 0)?;
    cases::show_words(rt, result)?;
    let written = cases::written(result);
    cases::show_out(rt, out, written)?;
    if accepted {
        read_back(rt, case, first, reader::text_of(out, 0, written))?;
    }
    Ok(())
}

fn write(case: [u64; 15], first: &[u8], bytes: &[u8], out: &mut [u8], res: &mut [u64]) -> u32 {
    let mut a = large_table();
    let mut b = [0u64; 8192];
    let mut c = [0u64; 8192];
    let start = std::num::wrapping_add_usize(PARTS, case[FIRST_PART] as usize);
    let second = std::num::wrapping_add_usize(start, case[GIVEN] as usize);
    let third = std::num::wrapping_add_usize(second, case[GIVEN_SECOND] as usize);
    let fields = take_table(bytes, start, case[GIVEN], case[LENT], &mut a);
    let columns = take_table(bytes, second, case[GIVEN_SECOND], case[LENT_SECOND], &mut b);
    let aliases = take_table(bytes, third, case[GIVEN_THIRD], case[LENT_THIRD], &mut c);
    write_tables(
        case,
        first,
        &a[..fields],
        &b[..columns],
        &c[..aliases],
        out,
        res,
    )
}

// The tables of a header; those of a footer are the first two, and that of a page list is the first.
fn write_tables(
    case: [u64; 15],
    first: &[u8],
    fields: &[u64],
    columns: &[u64],
    aliases: &[u64],
    out: &mut [u8],
    res: &mut [u64],
) -> u32 {
    let file_length = case[FILE_LENGTH];
    match case[CALLED] {
        1 => write_header(case, first, fields, columns, aliases, out, res),
        2 => exports::rnt_write_footer(first, file_length, fields, columns, out, res),
        _ => exports::rnt_write_page_list(first, case[ENTRIES], file_length, fields, out, res),
    }
}

fn write_header(
    case: [u64; 15],
    strings: &[u8],
    fields: &[u64],
    columns: &[u64],
    aliases: &[u64],
    out: &mut [u8],
    res: &mut [u64],
) -> u32 {
    exports::rnt_write_header(
        strings,
        case[NAME_PLACE],
        case[NAME_LENGTH],
        case[DESCRIPTION_PLACE],
        case[DESCRIPTION_LENGTH],
        fields,
        columns,
        aliases,
        out,
        res,
    )
}

// Takes a table from a case, and answers how many words are lent of it.
fn take_table(bytes: &[u8], at: usize, given: u64, lent: u64, table: &mut [u64]) -> usize
    ensures { IsPrefixLen result table.new }
{
    cases::take_words(reader::text_of(bytes, at, given as usize), table);
    cases::fit(lent, table)
}

// Reads what was written into tables of nines that have as many words as those that it was written from.
fn read_back(rt: &impl Print, case: [u64; 15], header: &[u8], written: &[u8]) -> io::Result<()> {
    let mut a = [9u64; 8192];
    let mut b = [9u64; 8192];
    let mut c = [9u64; 8192];
    let fields = cases::fit(case[LENT], &a);
    let columns = cases::fit(case[LENT_SECOND], &b);
    let aliases = cases::fit(case[LENT_THIRD], &c);
    match case[CALLED] {
        1 => read_header(
            rt,
            written,
            &mut a[..fields],
            &mut b[..columns],
            &mut c[..aliases],
        ),
        2 => read_footer(
            rt,
            header,
            written,
            case[FILE_LENGTH],
            &mut a[..fields],
            &mut b[..columns],
        ),
        _ => read_page_list(
            rt,
            header,
            written,
            case[ENTRIES],
            case[FILE_LENGTH],
            &mut a[..fields],
        ),
    }
}

fn read_header(
    rt: &impl Print,
    written: &[u8],
    fields: &mut [u64],
    columns: &mut [u64],
    aliases: &mut [u64],
) -> io::Result<()> {
    let mut result = [9u64; 7];
    let code = exports::rnt_read_header(written, fields, columns, aliases, &mut result);
    cases::show_answer(rt, code, &result, 4)?;
    show_table(rt, fields)?;
    show_table(rt, columns)?;
    show_table(rt, aliases)
}

fn read_footer(
    rt: &impl Print,
    header: &[u8],
    written: &[u8],
    file_length: u64,
    clusters: &mut [u64],
    metadata: &mut [u64],
) -> io::Result<()> {
    let mut result = [9u64; 2];
    let code = exports::rnt_read_footer(
        header,
        written,
        file_length,
        clusters,
        metadata,
        &mut result,
    );
    cases::show_answer(rt, code, &result, 0)?;
    show_table(rt, clusters)?;
    show_table(rt, metadata)
}

fn read_page_list(
    rt: &impl Print,
    header: &[u8],
    written: &[u8],
    entries: u64,
    file_length: u64,
    pages: &mut [u64],
) -> io::Result<()> {
    let mut result = [9u64; 1];
    let code = exports::rnt_read_page_list(
        header,
        written,
        entries,
        file_length,
        pages,
        &mut result,
    );
    cases::show_answer(rt, code, &result, 0)?;
    show_table(rt, pages)
}

fn show_table(rt: &impl Print, table: &[u64]) -> io::Result<()> {
    if table.len() <= SHOWN_WORDS {
        cases::show_words(rt, table)?;
    }
    Ok(())
}

// Rows of pages for more bytes than an envelope may have.
fn large_table() -> [u64; 327680]
    ensures { 327680 ≡ length result }
{
    [0; 327680]
}
