// Verdicts on what is to be written, each the number of a refusal or 0; and lengths, counted up to one more than an envelope's ceiling.
#![tactic(auto)]

mod length;
mod refused;

ghost use Rattle.std.specs.Prelude.{◌≡◌, ltb, take, drop};
ghost use Rattle.wire.specs.Reading.{unless};
ghost use Rattle.frames.specs.Frames.{at_most};
ghost use Rattle.writing.specs.Piece.{first, text};

pub use length::{grown, with_rows};
pub use refused::{RowVerdicts, first_of_rows};
use rows::Text;

// The first number that is too wide for a place of so many bits.
pub const BITS_16: u64 = 65536;

pub const BITS_30: u64 = 1073741824;

pub const BITS_31: u64 = 2147483648;

pub const BITS_32: u64 = 4294967296;

pub const BITS_60: u64 = 1152921504606846976;

// The most bytes of an envelope.
pub const CEILING: usize = 1048576;

// Refuses a string that does not lie in the lent strings.
const OUTSIDE: u16 = 7;

// The first of two refusals.
pub fn first(a: u16, b: u16) -> u16
    ensures { result ≡ first a b }
{
    if a == 0 {
        return b;
    }
    a
}

// A number below a limit is good as its verdict says; any other is too wide for its place.
pub fn narrow(n: u64, limit: u64, verdict: u16) -> u16
    ensures { result ≡ unless (ltb n limit) 25 verdict }
{
    if n < limit {
        return verdict;
    }
    25
}

// There are at most so many rows.
pub fn at_most(most: usize, n: usize) -> u16
    ensures { result ≡ at_most most n }
{
    if n <= most {
        return 0;
    }
    10
}

// The characters of a string, as far as the lent strings reach.
pub fn characters(strings: &[u8], string: Text) -> &[u8]
    ensures { result.now ≡ take string.len (drop string.place strings.now) }
{
    let place = string.place;
    let len = string.len;
    if strings.len() < place {
        return &strings[..0];
    }
    if strings.len() - place < len {
        return &strings[place..];
    }
    &strings[place..place + len]
}

// A string lies in the lent strings, and its characters are good.
pub fn text_number(strings: &[u8], string: Text) -> u16
    ensures { result ≡ (text strings.now string).number }
{
    let place = string.place;
    let room = strings.len();
    if room < place {
        return OUTSIDE;
    }
    if room - place < string.len {
        return OUTSIDE;
    }
    if utf8::well_formed(characters(strings, string)) {
        return 0;
    }
    9
}
