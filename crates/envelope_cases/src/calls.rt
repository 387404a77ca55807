// The calls that a case can ask for, each with the tables or the page that it is lent.
use std::io;

// The numbers of a case, by their places. What is called, as `call` numbers it.
const CALLED: usize = 0;

// The length of the file, or the column type, or the number of a plane.
const FILE_LENGTH: usize = 1;

const COLUMN_TYPE: usize = 1;

const PLANE: usize = 1;

// The entries of the cluster, or the elements of the page, or the place of a file's footer.
const ENTRIES: usize = 2;

const ELEMENTS: usize = 2;

const FOOTER_AT: usize = 2;

// How many words are lent of each table. A page call is lent the first, and has two other numbers for the rest:
// the starting element, and 1 where a checksum follows the page. A pairing is lent the first too, and has the checksum of a row.
const FIRST_TABLE: usize = 3;

const SECOND_TABLE: usize = 4;

const START: usize = 4;

const ROW_CHECKSUM: usize = 4;

const THIRD_TABLE: usize = 5;

const CHECKSUM: usize = 5;

// How many bytes are lent for a page.
const PAGE_ROOM: usize = 6;

pub fn call(rt: &impl Print, case: [u64; 10], first: &[u8], second: &[u8]) -> io::Result<()> {
    match case[CALLED] {
        1 => call_header(rt, case, first),
        2 => call_footer(rt, case, first, second),
        3 => call_page_list(rt, case, first, second),
        4 => call_decode(rt, case, first),
        5 => call_encode(rt, case, first),
        6 => call_crc32(rt, first),
        7 => call_place(rt, case, first, second),
        8 => call_pairing(rt, case, first, second),
        9 => call_file(rt, case, first, second),
        _ => call_moves(rt, case, first),
    }
}

fn call_crc32(rt: &impl Print, bytes: &[u8]) -> io::Result<()> {
    let sum = exports::rnt_crc32(bytes);
    print!(rt; " {sum:08x}")
}

// Of a header the counts are shown first, and then the places and lengths of its name and its description.
fn call_header(rt: &impl Print, case: [u64; 10], envelope: &[u8]) -> io::Result<()> {
    let mut a = [9u64; 64];
    let mut b = [9u64; 64];
    let mut c = [9u64; 64];
    let field_words = cases::fit(case[FIRST_TABLE], &a);
    let fields = &mut a[..field_words];
    let column_words = cases::fit(case[SECOND_TABLE], &b);
    let columns = &mut b[..column_words];
    let alias_words = cases::fit(case[THIRD_TABLE], &c);
    let aliases = &mut c[..alias_words];
    let mut result = [9u64; 7];
    let code = exports::rnt_read_header(envelope, fields, columns, aliases, &mut result);
    cases::show_answer(rt, code, &result, 4)?;
    cases::show_words(rt, fields)?;
    cases::show_words(rt, columns)?;
    cases::show_words(rt, aliases)?;
    Ok(())
}

// The words lent are those of the result, the first of which gets the sum of the moves.
fn call_moves(rt: &impl Print, case: [u64; 10], envelope: &[u8]) -> io::Result<()> {
    let mut a = [9u64; 64];
    let result_words = cases::fit(case[FIRST_TABLE], &a);
    let result = &mut a[..result_words];
    let code = exports::rnt_parent_moves(envelope, result);
    cases::show_answer(rt, code, &[], 0)?;
    cases::show_words(rt, result)?;
    Ok(())
}

fn call_footer(rt: &impl Print, case: [u64; 10], header: &[u8], footer: &[u8]) -> io::Result<()> {
    let mut a = [9u64; 64];
    let words = cases::fit(case[FIRST_TABLE], &a);
    read_clusters(rt, case, header, footer, &mut a[..words])?;
    Ok(())
}

// Answers how many clusters there are.
fn read_clusters(
    rt: &impl Print,
    case: [u64; 10],
    header: &[u8],
    footer: &[u8],
    clusters: &mut [u64],
) -> io::Result<u64> {
    let mut b = [9u64; 64];
    let metadata_words = cases::fit(case[SECOND_TABLE], &b);
    let metadata = &mut b[..metadata_words];
    let mut result = [9u64; 2];
    let code = exports::rnt_read_footer(
        header,
        footer,
        case[FILE_LENGTH],
        clusters,
        metadata,
        &mut result,
    );
    cases::show_answer(rt, code, &result, 0)?;
    cases::show_words(rt, clusters)?;
    cases::show_words(rt, metadata)?;
    Ok(result[0])
}

fn call_page_list(
    rt: &impl Print,
    case: [u64; 10],
    header: &[u8],
    page_list: &[u8],
) -> io::Result<()> {
    let mut a = [9u64; 64];
    let page_words = cases::fit(case[FIRST_TABLE], &a);
    let pages = &mut a[..page_words];
    let mut result = [9u64; 1];
    let code = exports::rnt_read_page_list(
        header,
        page_list,
        case[ENTRIES],
        case[FILE_LENGTH],
        pages,
        &mut result,
    );
    cases::show_answer(rt, code, &result, 0)?;
    cases::show_words(rt, pages)?;
    Ok(())
}

fn call_pairing(
    rt: &impl Print,
    case: [u64; 10],
    header: &[u8],
    page_list: &[u8],
) -> io::Result<()> {
    let mut a = [9u64; 64];
    let page_words = cases::fit(case[FIRST_TABLE], &a);
    let pages = &mut a[..page_words];
    pair(
        rt,
        header,
        page_list,
        case[ENTRIES],
        case[ROW_CHECKSUM],
        case[FILE_LENGTH],
        pages,
    )
}

// Of a file, which ends with its footer, the footer is read, and then the page list of each cluster by its row.
fn call_file(rt: &impl Print, case: [u64; 10], header: &[u8], file: &[u8]) -> io::Result<()> {
    let mut a = [9u64; 64];
    let mut b = [9u64; 64];
    let cluster_words = cases::fit(case[FIRST_TABLE], &a);
    let clusters = &mut a[..cluster_words];
    let page_words = cases::fit(case[THIRD_TABLE], &b);
    let pages = &mut b[..page_words];
    let at = case[FOOTER_AT] as usize;
    let footer = reader::text_of(file, at, std::num::wrapping_sub_usize(file.len(), at));
    let count = read_clusters(rt, case, header, footer, clusters)?;
    pair_rows(rt, case, header, file, clusters, count, pages)
}

fn pair_rows(
    rt: &impl Print,
    case: [u64; 10],
    header: &[u8],
    file: &[u8],
    clusters: &[u64],
    count: u64,
    pages: &mut [u64],
) -> io::Result<()> {
    for i in 0..count {
        pair_row(rt, case, header, file, clusters, i, pages)?;
    }
    Ok(())
}

// The page list is taken from the file by the row's link.
fn pair_row(
    rt: &impl Print,
    case: [u64; 10],
    header: &[u8],
    file: &[u8],
    clusters: &[u64],
    i: u64,
    pages: &mut [u64],
) -> io::Result<()> {
    let row = cluster_rows::cluster_row(clusters, i);
    let link = row.page_list;
    let page_list = reader::text_of(file, link.offset as usize, link.size as usize);
    pair(
        rt,
        header,
        page_list,
        row.entries,
        row.checksum,
        case[FILE_LENGTH],
        pages,
    )
}

fn pair(
    rt: &impl Print,
    header: &[u8],
    page_list: &[u8],
    entries: u64,
    checksum: u64,
    file_length: u64,
    pages: &mut [u64],
) -> io::Result<()> {
    let mut result = [9u64; 1];
    let code = exports::rnt_read_paired_page_list(
        header,
        page_list,
        entries,
        checksum,
        file_length,
        pages,
        &mut result,
    );
    cases::show_answer(rt, code, &result, 0)?;
    cases::show_words(rt, pages)?;
    Ok(())
}

fn call_decode(rt: &impl Print, case: [u64; 10], page: &[u8]) -> io::Result<()> {
    let mut a = [0x0909090909090909u64; 64];
    let lent = cases::fit(case[FIRST_TABLE], &a);
    let words = &mut a[..lent];
    let code = exports::rnt_decode_page(
        (case[COLUMN_TYPE] % 4294967296) as u32,
        case[ELEMENTS],
        (case[CHECKSUM] % 4294967296) as u32,
        page,
        words,
        case[START],
    );
    cases::show_answer(rt, code, &[], 0)?;
    cases::show_words(rt, words)?;
    Ok(())
}

fn call_encode(rt: &impl Print, case: [u64; 10], bytes: &[u8]) -> io::Result<()> {
    let mut a = [0u64; 64];
    cases::take_words(bytes, &mut a);
    let lent = cases::fit(case[FIRST_TABLE], &a);
    let words = &mut a[..lent];
    let mut b = [0xEEu8; 64];
    let room = cases::fit_bytes(case[PAGE_ROOM] % 4294967296, &b);
    let page = &mut b[..room];
    let mut result = [9u64; 1];
    let code = exports::rnt_encode_page(
        (case[COLUMN_TYPE] % 4294967296) as u32,
        case[ELEMENTS],
        (case[CHECKSUM] % 4294967296) as u32,
        words,
        case[START],
        page,
        &mut result,
    );
    cases::show_answer(rt, code, &result, 0)?;
    cases::show_bytes(rt, page)?;
    Ok(())
}

fn call_place(rt: &impl Print, case: [u64; 10], bytes: &[u8], plane: &[u8]) -> io::Result<()> {
    let mut a = [0u64; 64];
    cases::take_words(bytes, &mut a);
    let lent = cases::fit(case[FIRST_TABLE], &a);
    let words = &mut a[..lent];
    planes::place_plane(case[PLANE] as usize, plane, words);
    cases::show_words(rt, words)?;
    Ok(())
}
