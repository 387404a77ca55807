// The head and the end of a frame, and what it is read in.
ghost use Rattle.std.specs.Prelude.{◌≡◌, false, ℕ, ◌<◌, nat_abs, take};
ghost use Rattle.std.specs.Int.Signed.{non_neg};
ghost use Rattle.std.specs.Int.{w32};
ghost use Rattle.std.proofs.Common.{to_z};
ghost use Rattle.wire.specs.Reading.{found};
ghost use Rattle.frames.specs.Frames.{frame_size, frame_end, record_head, list_stop, closed};
ghost use Rattle.wire.specs.Answers.{as_step, place_step};

use crate::FrameSize;
use wire::{Fault, Kind, Step};

// The bytes before `stop`: what a frame that stops there is read in.
pub fn up_to(s: &[u8], stop: usize) -> &[u8]
    ensures { result.now ≡ take stop s.now }
{
    if stop <= s.len() {
        return &s[..stop];
    }
    s
}

// The signed number of 32 bits that a word is.
fn signed(word: u64) -> i32
    requires { word < 4294967296 }
    ensures { result ≡ to_z w32 word }
{
    if word < 2147483648 {
        word as i32
    } else {
        -1 - ((4294967295 - word) as i32)
    }
}

// The absolute value of a negative number: also of the least one, whose negation is no i32.
fn magnitude(size: i32) -> u64
    requires { non_neg size ≡ false }
    ensures { result ≡ nat_abs size }
{
    ((-1 - size) as u64) + 1
}

pub fn frame_size(word: u64) -> FrameSize
    requires { word < 4294967296 }
    ensures { result ≡ frame_size word }
{
    let size = signed(word);
    if size < 0 {
        FrameSize::ListSize(magnitude(size))
    } else {
        FrameSize::RecordSize(size as u64)
    }
}

// Where the content of a frame starts and the frame stops: its size is at least its head's, and its container has that much room.
pub fn frame_end(s: &[u8], at: usize, head: usize, size: u64) -> Step<usize>
    ensures { as_step result ≡ frame_end head s.now at size }
{
    let len = size as usize;
    if head <= len {
        if numbers::has_room(s, at, len) {
            return Ok((at + head, at + len));
        }
        return Err(wire::fault_at(7, Kind::Frame, at));
    }
    Err(wire::fault_at(8, Kind::Frame, at))
}

// A record frame's head.
pub fn record_head(s: &[u8], at: usize) -> Step<usize>
    ensures { as_step result ≡ record_head s.now at }
{
    if numbers::has_room(s, at, 4) {
        match frame_size(numbers::little_4(s, at)) {
            FrameSize::RecordSize(size) => frame_end(s, at, 4, size),
            FrameSize::ListSize(_) => Err(wire::fault_at(8, Kind::Frame, at)),
        }
    } else {
        Err(wire::fault_at(7, Kind::Frame, at))
    }
}

// The end of a frame whose content ends at `past`: bytes before `stop` are refused where `strict`, and skipped otherwise.
pub fn close_frame(strict: bool, past: usize, stop: usize) -> Result<usize, Fault>
    ensures { place_step result ≡ closed strict stop (found tt past) }
{
    if strict {
        if past < stop {
            return Err(wire::fault_at(11, Kind::Spare, past));
        }
        return Ok(stop);
    }
    Ok(stop)
}

// Where a list frame's items start, and where the frame stops.
pub fn list_stop(s: &[u8], at: usize) -> Step<usize>
    ensures { as_step result ≡ list_stop s.now at }
{
    if numbers::has_room(s, at, 4) {
        match frame_size(numbers::little_4(s, at)) {
            FrameSize::RecordSize(_) => Err(wire::fault_at(8, Kind::Frame, at)),
            FrameSize::ListSize(size) => frame_end(s, at, 8, size),
        }
    } else {
        Err(wire::fault_at(7, Kind::Frame, at))
    }
}
