// A case: eleven numbers of four bytes each, and four envelopes, each in 512 bytes. The numbers, by their places:

// Its kind: 1 header, 2 footer beside its header, 3 page list beside its header, 4 footer of version 1 that is raised, beside its header.
pub const KIND: usize = 0;

// Which envelope has the added byte, 1 the header or 2 the other, and where in it.
const WHICH: usize = 1;

const PLACE: usize = 2;

// The length of each envelope.
pub const PLAIN_HEADER: usize = 3;

pub const NEWER_HEADER: usize = 4;

pub const PLAIN: usize = 5;

pub const NEWER: usize = 6;

pub const FILE_LENGTH: usize = 7;

// The checksums that a raised footer has for its clusters, in turn.
pub const FIRST_SUM: usize = 8;

pub const SECOND_SUM: usize = 9;

pub const THIRD_SUM: usize = 10;

// The places of the envelopes, and the bytes of a case.
pub const PLAIN_HEADER_AT: usize = 44;

pub const NEWER_HEADER_AT: usize = 556;

pub const PLAIN_AT: usize = 1068;

pub const NEWER_AT: usize = 1580;

// Where a newer footer has the checksum of its header.
const CHECKSUM_COPY_AT: usize = 1592;

pub const BYTES: usize = 2092;

pub fn numbers_of(case: &[u8]) -> [u64; 11] {
    [
        numbers::little_4(case, 0),
        numbers::little_4(case, 4),
        numbers::little_4(case, 8),
        numbers::little_4(case, 12),
        numbers::little_4(case, 16),
        numbers::little_4(case, 20),
        numbers::little_4(case, 24),
        numbers::little_4(case, 28),
        numbers::little_4(case, 32),
        numbers::little_4(case, 36),
        numbers::little_4(case, 40),
    ]
}

// The envelope that has the added byte: 1 header, 2 footer, 3 page list.
fn changed(numbers: [u64; 11]) -> u64 {
    if numbers[WHICH] == 1 {
        return 1;
    }
    match numbers[KIND] {
        3 => 3,
        _ => 2,
    }
}

// The code of the answer that is due where the added byte is refused, which is 11 of its envelope.
pub fn refusal(numbers: [u64; 11]) -> u64 {
    match changed(numbers) {
        1 => 267,
        2 => 523,
        _ => 779,
    }
}

// What its envelope then starts with: version and minimum both 1, or both 2 for a footer, which carries checksums.
pub fn strict_head(numbers: [u64; 11]) -> u64 {
    match changed(numbers) {
        2 => 131074,
        _ => 65537,
    }
}

// Gives the newer envelope a head (minimum times 65536 plus version) and the added byte a value, and puts the checksums right, the footer's
// copy of the header's too.
pub fn write_added(case: &mut [u8; 2092], numbers: [u64; 11], head: u64, value: u64) {
    let start = if numbers[WHICH] == 1 {
        NEWER_HEADER_AT
    } else {
        NEWER_AT
    };
    put_4(case, start, head);
    let place = std::num::wrapping_add_usize(start, numbers[PLACE] as usize);
    put(case, place, value);
    let sum = seal(case, NEWER_HEADER_AT, numbers[NEWER_HEADER] as usize);
    let kind = numbers[KIND];
    if kind == 2 || kind == 4 {
        put_4(case, CHECKSUM_COPY_AT, sum);
    }
    seal(case, NEWER_AT, numbers[NEWER] as usize);
}

// Writes the checksum of an envelope of so many bytes behind the others, and answers it.
fn seal(case: &mut [u8; 2092], start: usize, len: usize) -> u64 {
    if len < 4 {
        return 0;
    }
    let end = len - 4;
    let sum = checksum::crc32(reader::text_of(case, start, end)) as u64;
    put_4(case, std::num::wrapping_add_usize(start, end), sum);
    sum
}

fn put_4(case: &mut [u8; 2092], at: usize, n: u64) {
    if 2088 < at {
        return;
    }
    case[at] = (n % 256) as u8;
    case[at + 1] = (n / 256 % 256) as u8;
    case[at + 2] = (n / 65536 % 256) as u8;
    case[at + 3] = (n / 16777216 % 256) as u8;
}

// The lowest byte of a number.
fn put(case: &mut [u8; 2092], at: usize, n: u64) {
    if at < 2092 {
        case[at] = (n % 256) as u8;
    }
}
