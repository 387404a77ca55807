// Writes the name of a header, and its description, which is empty.
#![tactic(auto)]

ghost use Rattle.std.specs.Prelude.{◌≡◌};
ghost use Rattle.text.specs.Strings.{string};
ghost use Rattle.reader_main.specs.Characters.{characters_of};

use std::io;

// The characters of the string at a place, none where it is refused.
fn string_text(envelope: &[u8], at: usize) -> &[u8]
    ensures { result.now ≡ characters_of envelope.now (string envelope.now at) }
{
    match text::string_at(envelope, at) {
        Ok((text, _)) => reader::read_text(envelope, text.place, text.len),
        Err(_) => &envelope[..0],
    }
}

fn main(rt: HostRuntime) -> io::Result<()> {
    let envelope =
        b"\x01\x00\x01\x00\x00\x00\x00\x00\x00\x00\x00\x00\x05\x00\x00\x00event\x00\x00\x00\x00\xf8\xff\xff\xff\x00\x00\x00\x00\xf8\xff\xff\xff\x00\x00\x00\x00\xf8\xff\xff\xff\x00\x00\x00\x00)\xb5r\x02";
    rt.write_all(string_text(envelope, 12))?;
    rt.println("")?;
    rt.write_all(string_text(envelope, 21))?;
    rt.println("")
}
