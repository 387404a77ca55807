// Locators: a stored size and an offset in the file.
#![tactic(auto)]

ghost use Rattle.std.specs.Prelude.{◌≡◌, ◌+◌, ◌^◌, ◌<◌};
ghost use Rattle.numbers.specs.Numbers.{trailer};
ghost use Rattle.wire.specs.Reading.{tested};
ghost use Rattle.wire.specs.Answers.{as_step};
ghost use Rattle.locator.specs.Locator.{stored_as, in_file, locator};

use wire::Step;

// A range of the file, as a locator has it.
#[derive(Clone, Copy)]
pub struct Range {
    pub size: u64,
    pub offset: u64,
}

// A locator whose stored size is the one that is due, and whose range is inside a file of `file` bytes, with the checksum behind it if one
// follows.
pub fn locator_at(s: &[u8], at: usize, file: u64, size: u64, checksum: bool) -> Step<Range>
    ensures { as_step result ≡ locator file size (trailer checksum) s.now at }
{
    let (stored, offset_place) = stored_size_at(s, at, size)?;
    let (offset, next) = offset_at(
        s,
        offset_place,
        file,
        stored,
        numbers::trailer_size(checksum) as u64,
    )?;
    Ok((
        Range {
            size: stored,
            offset,
        },
        next,
    ))
}

// The verdict on a locator's first word: bit 31 is not set, and the stored size is the one that is due.
pub fn stored_as(size: u64, word: u64) -> u16
    ensures { result ≡ stored_as size word }
{
    if word < 2147483648 {
        if word == size {
            return 0;
        }
        return 17;
    }
    17
}

// The verdict on an offset: the range of `size` bytes from there on, with `behind` more behind it, is inside the file. No sum is taken
// that could wrap.
pub fn in_file(file: u64, size: u64, behind: u64, offset: u64) -> u16
    ensures { result ≡ in_file file size behind offset }
{
    if size <= file {
        if behind <= file - size {
            return starts_in_file(file, size, behind, offset);
        }
        return 18;
    }
    18
}

// The same of a range whose size and what is behind it do not wrap together, as those of a locator that is read: one test less.
fn starts_in_file(file: u64, size: u64, behind: u64, offset: u64) -> u16
    requires { size + behind < 2 ^ 64 }
    ensures { result ≡ in_file file size behind offset }
{
    let length = size + behind;
    if length <= file {
        if offset <= file - length {
            return 0;
        }
        return 18;
    }
    18
}

fn stored_size_at(s: &[u8], at: usize, size: u64) -> Step<u64>
    ensures { as_step result ≡ tested 4 (stored_as size) s.now at }
{
    let (word, next) = wire::number_4(s, at)?;
    wire::judge(word, at, next, stored_as(size, word))
}

fn offset_at(s: &[u8], at: usize, file: u64, size: u64, behind: u64) -> Step<u64>
    requires { size + behind < 2 ^ 64 }
    ensures { as_step result ≡ tested 8 (in_file file size behind) s.now at }
{
    let (offset, next) = wire::number_8(s, at)?;
    wire::judge(offset, at, next, starts_in_file(file, size, behind, offset))
}
