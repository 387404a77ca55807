// The envelope around every payload: its checks before the payload, and the feature words that a header's and a footer's payload
// start with.
#![tactic(auto)]

mod features;

ghost use Rattle.std.specs.Prelude.{◌≡◌};
ghost use Rattle.envelope.specs.Envelope.{opened};
ghost use Rattle.envelope.specs.Answers.{open_step};

pub use features::features_at;
use wire::{Fault, Kind};

// An envelope that is opened: its version, whether its spare bytes are refused, and where its payload ends.
#[derive(Clone, Copy)]
pub struct Opening {
    pub version: u64,
    pub strict: bool,
    pub stop: usize,
}

// The most bytes that an envelope may have.
const MOST_BYTES: usize = 1048576;

// The checks on an envelope before its payload; `supported` is the highest minimum version that is read.
pub fn open_envelope(e: &[u8], supported: u64) -> Result<Opening, Fault>
    ensures { open_step result ≡ opened supported e.now }
{
    if MOST_BYTES < e.len() {
        return Err(wire::fault_at(1, Kind::Envelope, 0));
    }
    if e.len() < 8 {
        return Err(wire::fault_at(2, Kind::Envelope, 0));
    }
    let end = e.len() - 4;
    let sum = checksum::crc32(&e[..end]);
    if sum as u64 != numbers::little_4(e, end) {
        return Err(wire::fault_at(3, Kind::Envelope, 0));
    }
    let version = numbers::little_2(e, 0);
    let minimum = numbers::little_2(e, 2);
    if minimum < 1 {
        return Err(wire::fault_at(4, Kind::Envelope, 0));
    }
    if version < minimum {
        return Err(wire::fault_at(4, Kind::Envelope, 0));
    }
    if supported < minimum {
        return Err(wire::fault_at(5, Kind::Envelope, 0));
    }
    Ok(Opening {
        version,
        strict: version == minimum,
        stop: end,
    })
}
