// Little-endian numbers, and verdicts on them.
ghost use Rattle.std.specs.Prelude.{◌≡◌, eqb};
ghost use Rattle.wire.specs.Reading.{found, number, judged, unless};
ghost use Rattle.wire.specs.Answers.{as_step};

use crate::faults::fault_at;
use crate::{Kind, Step};

// The number of two bytes at `at`; and likewise of four and eight.
pub fn number_2(s: &[u8], at: usize) -> Step<u64>
    ensures { as_step result ≡ number 2 s.now at }
{
    if numbers::has_room(s, at, 2) {
        Ok((numbers::little_2(s, at), at + 2))
    } else {
        Err(fault_at(7, Kind::Number, at))
    }
}

pub fn number_4(s: &[u8], at: usize) -> Step<u64>
    ensures { as_step result ≡ number 4 s.now at }
{
    if numbers::has_room(s, at, 4) {
        Ok((numbers::little_4(s, at), at + 4))
    } else {
        Err(fault_at(7, Kind::Number, at))
    }
}

pub fn number_8(s: &[u8], at: usize) -> Step<u64>
    ensures { as_step result ≡ number 8 s.now at }
{
    if numbers::has_room(s, at, 8) {
        Ok((numbers::little_8(s, at), at + 8))
    } else {
        Err(fault_at(7, Kind::Number, at))
    }
}

// A number that was read at `at`, and the place after it, after a verdict on it: 0 where it is good, else the number of the
// first test that fails. Who reads a number and judges it takes two lines; with the verdict as a closure it would take as many.
pub fn judge(value: u64, at: usize, next: usize, verdict: u16) -> Step<u64>
    ensures { as_step result ≡ judged (λ _. verdict) at (found value next) }
{
    if verdict == 0 {
        return Ok((value, next));
    }
    Err(fault_at(verdict, Kind::Number, at))
}

// The verdict on a number that must be the one that is due: 0, or the number that refuses it.
pub fn unless_due(value: u64, due: u64, number: u16) -> u16
    ensures { result ≡ unless (eqb value due) number 0 }
{
    if value == due {
        return 0;
    }
    number
}
