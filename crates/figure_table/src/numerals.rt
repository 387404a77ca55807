// A number that is handed in as text.
ghost use Rattle.std.specs.Prelude.{◌≡◌, Some};
ghost use Rattle.figure_table.specs.Numeral.{numeral, with_digit};

// None where there are no digits, something else among them, or more than 64 bits hold.
pub fn number_of(text: &[u8]) -> Option<u64>
    ensures { result ≡ numeral text.now }
{
    if text.len() == 0 {
        return None;
    }
    let mut n = 0;
    for byte in text {
        n = with_digit(n, *byte)?;
    }
    Some(n)
}

// The number with one digit more behind it.
fn with_digit(n: u64, byte: u8) -> Option<u64>
    ensures { result ≡ with_digit (Some n) byte }
{
    if byte < 48 {
        return None;
    }
    if 57 < byte {
        return None;
    }
    if 1844674407370955161 < n {
        return None;
    }
    let digit = (byte - 48) as u64;
    if 18446744073709551615 - 10 * n < digit {
        return None;
    }
    Some(10 * n + digit)
}
