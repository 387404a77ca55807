// Lengths, counted up to one more than an envelope's ceiling, so that no sum can wrap.
ghost use Rattle.std.specs.Prelude.{◌≡◌, ◌+◌, ◌*◌};
ghost use Rattle.verdicts.specs.Length.{capped};

use crate::CEILING;

const TOO_LONG: usize = CEILING + 1;

// A length with so much more.
pub fn grown(total: usize, more: usize) -> usize
    ensures { result ≡ capped (total + more) }
{
    if CEILING < total {
        return TOO_LONG;
    }
    if CEILING - total < more {
        return TOO_LONG;
    }
    total + more
}

// A length with so many rows more, of `size` bytes each.
pub fn with_rows(total: usize, rows: usize, size: u16) -> usize
    ensures { result ≡ capped (total + rows * size) }
{
    if size == 0 {
        return grown(total, 0);
    }
    if CEILING < rows {
        return TOO_LONG;
    }
    grown(total, rows * size as usize)
}
