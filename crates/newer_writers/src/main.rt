// Bytes that newer writers add, run through the readers: envelopes of data/cases, each beside itself with a byte added at the end of one
// frame or of the payload. That byte takes all 256 values, each with a version of its own from 2 on, the checksums are put right, and the
// readers must leave the same tables, but for the checksums that a footer of version 1 gets where it is raised; a table of which one word was
// changed must be told apart, and the same byte must be refused where the version is the minimum. A page list is also read for a row that
// has its checksum, which is put right too; before that it must be refused 26. Of a header the moves to the top must be as many, too.
#![tactic(auto)]

mod case;
mod compare;

use compare::{MOVES, OLD_ROW, PAIRING};
use std::io::Read;
use std::{fs, io};

// What is counted: newer envelopes by what `compare` answers, read with other tables (0) or with the same; those of which a word was
// changed, told apart or, 8 further on, not; envelopes refused as is due; added bytes; and page lists refused for an old row. The kind of
// a case is added to it.
const TOLD: u64 = 16;

const REFUSED: u64 = 32;

const ADDED: u64 = 40;

const STALE: u64 = 48;

// No table has this word.
const NO_WORD: u64 = 1000;

// Version 2, minimum 1.
const NEWER_HEAD: u64 = 65538;

// The code of 26 of a page list.
const STALE_CODE: u64 = 794;

fn main(rt: HostRuntime) -> io::Result<()> {
    let mut file = fs::open(&rt, "cases")?;
    run_cases(&rt, &mut file)
}

// There are fewer than 1,000 cases.
fn run_cases(rt: &impl Print, file: &mut impl Read) -> io::Result<()> {
    let mut counts = [0u64; 56];
    for _ in 0..1000 {
        next_case(file, &mut counts)?;
    }
    print_all(rt, &counts)
}

fn print_all(rt: &impl Print, counts: &[u64; 56]) -> io::Result<()> {
    print_counts(rt, "header: ", counts, 1)?;
    print_counts(rt, "moves to the top: ", counts, MOVES)?;
    print_counts(rt, "footer: ", counts, 2)?;
    print_counts(rt, "footer raised from version 1: ", counts, 4)?;
    print_counts(rt, "page list: ", counts, 3)?;
    print_counts(rt, "page list and its row: ", counts, PAIRING)?;
    rt.print("page list and an old row: ")?;
    print_count(rt, counts, PAIRING, STALE, " refused 26\n")
}

fn print_counts(rt: &impl Print, name: &str, counts: &[u64; 56], kind: u64) -> io::Result<()> {
    rt.print(name)?;
    print_count(
        rt,
        counts,
        kind,
        ADDED,
        " added bytes, each of 256 values: ",
    )?;
    print_count(rt, counts, kind, compare::SAME, " read the same, ")?;
    print_count(
        rt,
        counts,
        kind,
        REFUSED,
        " refused 11 where the version is the minimum, ",
    )?;
    print_count(rt, counts, kind, TOLD, " changed words told apart\n")
}

fn print_count(
    rt: &impl Print,
    counts: &[u64; 56],
    kind: u64,
    what: u64,
    words: &str,
) -> io::Result<()> {
    let at = std::num::wrapping_add_u64(kind, what) as usize;
    if at < 56 {
        let count = counts[at];
        print!(rt; "{count}{words}")?;
    }
    Ok(())
}

fn add(counts: &mut [u64; 56], kind: u64, what: u64) {
    let at = std::num::wrapping_add_u64(kind, what) as usize;
    if at < 56 {
        counts[at] = std::num::wrapping_add_u64(counts[at], 1);
    }
}

// Reads the next case, if there is one, and runs it; a header also for its moves, and a page list as a pairing.
fn next_case(file: &mut impl Read, counts: &mut [u64; 56]) -> io::Result<()> {
    let mut bytes = [0u8; 2092];
    if cases::read_full(file, &mut bytes)? < case::BYTES {
        return Ok(());
    }
    let numbers = case::numbers_of(&bytes);
    let kind = numbers[case::KIND];
    run_case(&mut bytes, numbers, kind, counts);
    if kind == 1 {
        run_case(&mut bytes, numbers, MOVES, counts);
    }
    if kind == 3 {
        run_case(&mut bytes, numbers, PAIRING, counts);
    }
    Ok(())
}

fn run_case(bytes: &mut [u8; 2092], numbers: [u64; 11], kind: u64, counts: &mut [u64; 56]) {
    add(counts, kind, ADDED);
    for value in 0..256 {
        run_value(bytes, numbers, kind, counts, value);
    }
}

fn run_value(
    bytes: &mut [u8; 2092],
    numbers: [u64; 11],
    kind: u64,
    counts: &mut [u64; 56],
    value: u64,
) {
    let head = std::num::wrapping_add_u64(NEWER_HEAD, value);
    case::write_added(bytes, numbers, head, value);
    add(
        counts,
        kind,
        compare::compare(bytes, numbers, kind, NO_WORD),
    );
    let changed = std::num::wrapping_add_u64(kind, TOLD);
    add(
        counts,
        changed,
        compare::compare(bytes, numbers, kind, value),
    );
    if kind == PAIRING {
        if compare::compare(bytes, numbers, OLD_ROW, NO_WORD) == STALE_CODE {
            add(counts, kind, STALE);
        }
    }
    case::write_added(bytes, numbers, case::strict_head(numbers), value);
    if compare::compare(bytes, numbers, kind, NO_WORD) == case::refusal(numbers) {
        add(counts, kind, REFUSED);
    }
}
