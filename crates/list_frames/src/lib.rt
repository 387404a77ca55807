// Lists: the head of a list's frame, the verdict on its count, and its end.
#![tactic(auto)]

ghost use Rattle.std.specs.Prelude.{◌≡◌};
ghost use Rattle.wire.specs.Reading.{found, in_item};
ghost use Rattle.wire.specs.Answers.{as_step};
ghost use Rattle.frames.specs.Frames.{list_stop, list_count, count_judged, list_head, at_most, closed_by};

use frames::ListHead;
use wire::{Kind, Step};

// A list frame's head, before the verdict on its count.
pub fn list_head(s: &[u8], at: usize) -> Step<ListHead>
    ensures { as_step result ≡ list_count s.now at (list_stop s.now at) }
{
    let (start, stop) = frames::list_stop(s, at)?;
    let count = numbers::little_4(s, at + 4) as usize;
    if count < 268435456 {
        Ok((ListHead { count, start }, stop))
    } else {
        Err(wire::fault_at(8, Kind::Frame, at))
    }
}

// The head of a list at `at`, after a verdict on its count.
pub fn judge_count(head: ListHead, at: usize, stop: usize, verdict: u16) -> Step<ListHead>
    ensures { as_step result ≡ count_judged (λ _. verdict) at (found head stop) }
{
    if verdict == 0 {
        return Ok((head, stop));
    }
    Err(wire::fault_at(verdict, Kind::Frame, at))
}

// The head of a list of at most so many items.
pub fn list_head_at_most(s: &[u8], at: usize, most: usize) -> Step<ListHead>
    ensures { as_step result ≡ list_head (at_most most) s.now at }
{
    let (head, stop) = list_head(s, at)?;
    if head.count <= most {
        Ok((head, stop))
    } else {
        Err(wire::fault_at(10, Kind::Frame, at))
    }
}

// The end of a list of `count` items at `list`, whose frame ends at `stop`.
pub fn close_list<T: Copy>(
    step: Step<T>,
    strict: bool,
    list: usize,
    count: usize,
    stop: usize,
) -> Step<T>
    ensures { as_step result ≡ closed_by (in_item list count) strict stop (as_step step) }
{
    let (v, past) = step?;
    match frames::close_frame(strict, past, stop) {
        Ok(next) => Ok((v, next)),
        Err(f) => Err(wire::fault_in_item(list, count, f)),
    }
}
