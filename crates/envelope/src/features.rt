// Feature words.
ghost use Rattle.std.specs.Prelude.{◌≡◌, length};
ghost use Rattle.wire.specs.Reading.{tested};
ghost use Rattle.wire.specs.Answers.{as_step, place_step};
ghost use Rattle.envelope.specs.Features.{feature_bits, features};

use wire::{Fault, Kind, Step};

// The verdict on a feature word: no bit but 63 is set.
fn feature_bits(word: u64) -> u16
    ensures { result ≡ feature_bits word }
{
    if word % 9223372036854775808 == 0 {
        return 0;
    }
    6
}

fn feature_word(s: &[u8], at: usize) -> Step<u64>
    ensures { as_step result ≡ tested 8 feature_bits s.now at }
{
    let (word, next) = wire::number_8(s, at)?;
    wire::judge(word, at, next, feature_bits(word))
}

// The feature words: the place after them. No more words than bytes can follow each other.
pub fn features_at(s: &[u8], start: usize) -> Result<usize, Fault>
    ensures { place_step result ≡ features (length s.now) s.now start }
{
    let mut at = start;
    for done in 0..s.len() {
        let (word, next) = feature_word(s, at)?;
        if word == 0 {
            return Ok(next);
        }
        at = next;
    }
    Err(wire::fault_at(7, Kind::Number, at))
}
