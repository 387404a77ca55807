// For programs that run cases, each from a file that an argument names: the words of a case, and what is printed of a call.
#![tactic(auto)]

ghost use Rattle.std.specs.Prelude.{◌≡◌, ℕ, ◌<◌, min, length, replicate, ◌==◌, slice_index, IfOk};
ghost use Rattle.std.specs.Io.{ReadsAtMost};
ghost use Rattle.io.specs.Counts.{IsPrefixLen};
ghost use Rattle.cases.specs.Words.{word_at};

use std::io::Read;
use std::rt::Files;
use std::{fs, io};

// No more bytes of a case are read.
pub const CASE_BYTES: usize = 65536;

// Prints the name of a file, and puts its bytes into a buffer. Answers how many there are.
pub fn read_case<R: Files + Print>(rt: &R, name: &str, input: &mut [u8]) -> io::Result<usize>
    ensures { ReadsAtMost result input.new }
{
    let mut file = fs::open(rt, name)?;
    print!(rt; "{name}:")?;
    read_full(&mut file, input)
}

// Reads until the buffer is full or there is nothing more to read, and answers how many bytes were read.
pub fn read_full<R: Read>(reader: &mut R, buffer: &mut [u8]) -> io::Result<usize>
    ensures { ReadsAtMost result buffer.new }
{
    let mut done = 0;
    // No `for`: the place moves on by what a read brought.
    while done < buffer.len() {
        let count = reader.read(&mut buffer[done..])?;
        if count == 0 {
            break;
        }
        done += count;
    }
    Ok(done)
}

// Puts the words that some bytes spell into a table, again from the first of them where the table has more.
pub fn take_words(bytes: &[u8], table: &mut [u64])
    ensures { (length table.new ≡ length table.old) × ((i : ℕ) → i < length table.old → slice_index table.new i ≡ word_at bytes.now i) }
{
    for i in 0..table.len() {
        table[i] = word_at(bytes, i);
    }
}

fn word_at(bytes: &[u8], i: usize) -> u64
    ensures { result ≡ word_at bytes.now i }
{
    let count = bytes.len() / 8;
    if count == 0 {
        return 0;
    }
    numbers::little_8(bytes, i % count * 8)
}

// So many words are lent of a table, all of them where it has fewer.
pub fn fit(words: u64, table: &[u64]) -> usize
    ensures prefix_len { IsPrefixLen result table.now }
    ensures value { result ≡ min words (length table.now) }
{
    words.min(table.len() as u64) as usize
}

// So many bytes are lent, likewise.
pub fn fit_bytes(count: u64, bytes: &[u8]) -> usize
    ensures prefix_len { IsPrefixLen result bytes.now }
    ensures value { result ≡ min count (length bytes.now) }
{
    count.min(bytes.len() as u64) as usize
}

// A refusal's envelope and number; or the words of the result, those from `first` on before those in front of it. Answers whether the
// call was accepted.
pub fn show_answer(rt: &impl Print, code: u32, res: &[u64], first: usize) -> io::Result<bool>
    ensures { IfOk result (λ accepted. accepted ≡ (code == 0)) }
{
    if code != 0 {
        print!(rt; " refused")?;
        number(rt, (code / 256) as u64)?;
        number(rt, (code % 256) as u64)?;
        return Ok(false);
    }
    print!(rt; " accepted")?;
    numbers(rt, res, first, res.len())?;
    numbers(rt, res, 0, first)?;
    Ok(true)
}

fn number(rt: &impl Print, n: u64) -> io::Result<()> {
    print!(rt; " {n}")
}

// The words from `start` to `stop`.
fn numbers(rt: &impl Print, table: &[u64], start: usize, stop: usize) -> io::Result<()> {
    for i in start..stop {
        if i < table.len() {
            number(rt, table[i])?;
        }
    }
    Ok(())
}

// All words of a table, and likewise bytes. Answers how many there are.
pub fn show_words(rt: &impl Print, table: &[u64]) -> io::Result<usize>
    ensures { IfOk result (λ count. count ≡ length table.now) }
{
    print!(rt; " |")?;
    numbers(rt, table, 0, table.len())?;
    Ok(table.len())
}

pub fn show_bytes(rt: &impl Print, bytes: &[u8]) -> io::Result<usize>
    ensures { IfOk result (λ count. count ≡ length bytes.now) }
{
    print!(rt; " |")?;
    for byte in bytes {
        print!(rt; " {byte:02x}")?;
    }
    Ok(bytes.len())
}

// Of more lent bytes checksums are shown.
const SHOWN_BYTES: usize = 128;

// Lent bytes of which so many are written: all, or two checksums. Of an envelope with its own checksum the checksum is always the same, so
// that the first is of what stands before the last four bytes written, and the second of the rest. Answers how many bytes are lent.
pub fn show_out(rt: &impl Print, out: &[u8], written: usize) -> io::Result<usize>
    ensures { IfOk result (λ count. count ≡ length out.now) }
{
    if out.len() <= SHOWN_BYTES {
        return show_bytes(rt, out);
    }
    let front = if written < 4 { 0 } else { written - 4 };
    show_checksum(rt, reader::text_of(out, 0, front))?;
    let rest = std::num::wrapping_sub_usize(out.len(), front);
    show_checksum(rt, reader::text_of(out, front, rest))?;
    Ok(out.len())
}

fn show_checksum(rt: &impl Print, bytes: &[u8]) -> io::Result<()> {
    let sum = checksum::crc32(bytes);
    print!(rt; " {sum:08x}")
}

// How many bytes a call has written, by its result: none where that has no words.
pub fn written(res: &[u64]) -> usize
    ensures { result ≡ slice_index res.now 0 }
{
    if res.len() == 0 {
        return 0;
    }
    res[0] as usize
}

// One byte more than an envelope may have, each the one that is given.
pub fn filled(byte: u8) -> [u8; 1048577]
    ensures value { 1048577 ≡ length result }
    ensures value_2 { result ≡ replicate 1048577 byte }
{
    [byte; 1048577]
}
