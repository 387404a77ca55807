// Strings: a length of four bytes, and so many bytes of characters.
#![tactic(auto)]

ghost use Rattle.std.specs.Prelude.{◌≡◌};
ghost use Rattle.utf8.specs.WellFormed.{well_formed};
ghost use Rattle.text.specs.Strings.{string};
ghost use Rattle.wire.specs.Answers.{as_step};

use rows::Text;
use wire::{Kind, Step};

// The bytes are well-formed UTF-8. Most names are ASCII: that is tested here, with no call, and the rest in a function of its own.
fn is_text(s: &[u8]) -> bool
    ensures { result ≡ well_formed s.now }
{
    if utf8::is_ascii(s) {
        return true;
    }
    utf8::well_formed(s)
}

// The string whose length stands at `at`.
pub fn string_at(s: &[u8], at: usize) -> Step<Text>
    ensures { as_step result ≡ string s.now at }
{
    if numbers::has_room(s, at, 4) {
        let from = at + 4;
        let len = numbers::little_4(s, at) as usize;
        if numbers::has_room(s, from, len) {
            let to = from + len;
            if is_text(&s[from..to]) {
                return Ok((Text { place: from, len }, to));
            }
            return Err(wire::fault_at(9, Kind::Text, at));
        }
        return Err(wire::fault_at(7, Kind::Text, at));
    }
    Err(wire::fault_at(7, Kind::Text, at))
}
