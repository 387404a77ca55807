// Numbers that are judged as soon as they are read whole.
ghost use Rattle.std.specs.Prelude.{◌≡◌};
ghost use Rattle.wire.specs.Reading.{tested, below, listed};
ghost use Rattle.wire.specs.Answers.{as_step};

use wire::Step;

// The verdict on a field's or a column's number: below its count.
pub fn below(limit: u64, v: u64) -> u16
    ensures { result ≡ below limit v }
{
    if v < limit {
        return 0;
    }
    14
}

// The verdict on a role or on flags: none above the greatest that is listed.
pub fn listed(most: u64, v: u64) -> u16
    ensures { result ≡ listed most v }
{
    if v <= most {
        return 0;
    }
    12
}

// The number of one of `count` fields or columns.
pub fn number_below(s: &[u8], at: usize, count: u64) -> Step<u64>
    ensures { as_step result ≡ tested 4 (below count) s.now at }
{
    let (v, next) = wire::number_4(s, at)?;
    wire::judge(v, at, next, below(count, v))
}

// A role or flags of two bytes, none above `most`.
pub fn listed_2(s: &[u8], at: usize, most: u64) -> Step<u64>
    ensures { as_step result ≡ tested 2 (listed most) s.now at }
{
    let (v, next) = wire::number_2(s, at)?;
    wire::judge(v, at, next, listed(most, v))
}

// Flags of four bytes, none above `most`.
pub fn listed_4(s: &[u8], at: usize, most: u64) -> Step<u64>
    ensures { as_step result ≡ tested 4 (listed most) s.now at }
{
    let (v, next) = wire::number_4(s, at)?;
    wire::judge(v, at, next, listed(most, v))
}
