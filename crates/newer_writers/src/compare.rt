// What the readers make of the plain and of the newer envelope of a case.
use crate::case;
use page_list::PageListAnswer;
use rows::NO_CHECKSUM as NONE;

// The tables are the same. Every other answer is the code of what the reader says of the newer envelope, 0 where it accepts and the tables
// differ; the words of what it says go to a table that is not needed any more.
pub const SAME: u64 = 8;

// Kinds beside those of a case: a page list for a row that has its checksum, and the newer one for the row of the plain one; and the moves
// of a header's fields to their tops, whose sum is the one word of a table.
pub const PAIRING: u64 = 5;

pub const OLD_ROW: u64 = 6;

pub const MOVES: u64 = 7;

// One is added to word number `word` of the newer tables, counted through all of them, where they have it.
pub fn compare(bytes: &[u8], numbers: [u64; 11], kind: u64, word: u64) -> u64 {
    let header = reader::text_of(
        bytes,
        case::PLAIN_HEADER_AT,
        numbers[case::PLAIN_HEADER] as usize,
    );
    let newer_header = reader::text_of(
        bytes,
        case::NEWER_HEADER_AT,
        numbers[case::NEWER_HEADER] as usize,
    );
    let plain = reader::text_of(bytes, case::PLAIN_AT, numbers[case::PLAIN] as usize);
    let newer = reader::text_of(bytes, case::NEWER_AT, numbers[case::NEWER] as usize);
    let length = numbers[case::FILE_LENGTH];
    match kind {
        1 => headers(header, newer_header, word),
        2 | 4 => footers(header, plain, newer_header, newer, numbers, word),
        MOVES => sums(header, newer_header, word),
        _ => page_lists(header, plain, newer_header, newer, kind, length, word),
    }
}

fn headers(old: &[u8], new: &[u8], word: u64) -> u64 {
    let mut f = [9u64; 120];
    let mut c = [9u64; 32];
    let mut a = [9u64; 4];
    let x = header_reader::read_header(old, &mut f, &mut c, &mut a);
    let mut g = [9u64; 120];
    let mut d = [9u64; 32];
    let mut b = [9u64; 4];
    let y = header_reader::read_header(new, &mut g, &mut d, &mut b);
    change(&mut g, word, 0);
    change(&mut d, word, 120);
    change(&mut b, word, 152);
    if same_tables::same_headers(old, &f, &c, &a, x, new, &g, &d, &b, y) {
        return SAME;
    }
    answers::tell_header(y, &mut g) as u64
}

fn sums(old: &[u8], new: &[u8], word: u64) -> u64 {
    let mut s = [9u64; 1];
    let x = answers::tell_moves(moves::parent_moves(old), &mut s);
    let mut t = [9u64; 1];
    let y = answers::tell_moves(moves::parent_moves(new), &mut t);
    change(&mut t, word, 0);
    if x == 0 && y == 0 && s[0] == t[0] {
        return SAME;
    }
    y as u64
}

// The rows of a plain footer of version 1 are compared with the checksums that it gets where it is raised.
fn footers(
    header: &[u8],
    plain: &[u8],
    newer_header: &[u8],
    newer: &[u8],
    numbers: [u64; 11],
    word: u64,
) -> u64 {
    let length = numbers[case::FILE_LENGTH];
    let mut c = [9u64; 20];
    let mut m = [9u64; 8];
    let x = footer::read_footer(header, plain, length, &mut c, &mut m);
    raise(&mut c, numbers);
    let mut d = [9u64; 20];
    let mut n = [9u64; 8];
    let y = footer::read_footer(newer_header, newer, length, &mut d, &mut n);
    change(&mut d, word, 0);
    change(&mut n, word, 20);
    if same_tables::same_footers(&c, &m, x, &d, &n, y) {
        return SAME;
    }
    answers::tell_footer(y, &mut d) as u64
}

// Gives the first three rows their checksums, each where it has none.
fn raise(clusters: &mut [u64], numbers: [u64; 11]) {
    raise_word(clusters, 4, numbers[case::FIRST_SUM]);
    raise_word(clusters, 9, numbers[case::SECOND_SUM]);
    raise_word(clusters, 14, numbers[case::THIRD_SUM]);
}

fn raise_word(clusters: &mut [u64], at: usize, checksum: u64) {
    if at < clusters.len() {
        if clusters[at] == NONE {
            clusters[at] = checksum;
        }
    }
}

fn page_lists(
    header: &[u8],
    plain: &[u8],
    newer_header: &[u8],
    newer: &[u8],
    kind: u64,
    length: u64,
    word: u64,
) -> u64 {
    let mut p = [9u64; 80];
    let x = read_pages(header, plain, row_sum(kind, plain, plain), length, &mut p);
    let mut q = [9u64; 80];
    let y = read_pages(
        newer_header,
        newer,
        row_sum(kind, plain, newer),
        length,
        &mut q,
    );
    change(&mut q, word, 0);
    if same_tables::same_page_lists(&p, x, &q, y) {
        return SAME;
    }
    answers::tell_page_list(y, &mut q) as u64
}

// The checksum that the row of a page list has.
fn row_sum(kind: u64, plain: &[u8], list: &[u8]) -> u64 {
    match kind {
        PAIRING => sum_of(list),
        OLD_ROW => sum_of(plain),
        _ => NONE,
    }
}

// The number that an envelope ends with.
fn sum_of(envelope: &[u8]) -> u64 {
    numbers::little_4(envelope, std::num::wrapping_sub_usize(envelope.len(), 4))
}

// The cluster of every page list has three entries. For a row without a checksum the page-list reader itself is called.
fn read_pages(
    header: &[u8],
    list: &[u8],
    sum: u64,
    length: u64,
    pages: &mut [u64],
) -> PageListAnswer {
    if sum == NONE {
        return page_list::read_page_list(header, list, 3, length, pages);
    }
    pairing::read_paired_page_list(header, list, 3, sum, length, pages)
}

// Adds one to word number `word` of all tables, where the table whose first is number `first` has it.
fn change(table: &mut [u64], word: u64, first: u64) {
    let at = std::num::wrapping_sub_u64(word, first) as usize;
    if at < table.len() {
        table[at] = std::num::wrapping_add_u64(table[at], 1);
    }
}
