// A number in decimal digits.
#![tactic(auto)]

ghost use Rattle.std.specs.Prelude.{◌≡◌, take};
ghost use Rattle.io.specs.Counts.{IsPrefixLen};
ghost use Rattle.decimals.specs.Decimal.{decimal};

// The first `len` bytes are the digits, in ASCII.
#[derive(Clone, Copy)]
pub struct Digits {
    pub bytes: [u8; 20],
    pub len: usize,
}

pub fn digits_of(n: u64) -> Digits
    ensures is { take result.len result.bytes ≡ decimal n }
    ensures counts { IsPrefixLen result.len result.bytes }
{
    let mut bytes = [0u8; 20];
    let len = io::decimal(n, &mut bytes);
    Digits { bytes, len }
}
