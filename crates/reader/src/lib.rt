// A thin reader: an envelope that is lent, and a place in it. Its functions take it apart and call others with the slice and the
// number. `read_text` has plain parameters, for who has no reader.
#![tactic(auto)]

ghost use Rattle.std.specs.Prelude.{◌≡◌};
ghost use Rattle.reader.specs.Text.{text_of};

#[derive(Clone, Copy)]
pub struct Reader<'a> {
    pub src: &'a [u8],
    pub at: usize,
}

// The characters of a string: the part of the envelope that its place and length name, empty where the envelope does not reach so far.
pub fn text_of(envelope: &[u8], place: usize, len: usize) -> &[u8]
    ensures { result.now ≡ text_of envelope.now place len }
{
    if numbers::has_room(envelope, place, len) {
        return &envelope[place..place + len];
    }
    &envelope[..0]
}

impl<'a> Reader<'a> {
    // A reader at the envelope's first byte.
    pub fn new(envelope: &'a [u8]) -> Reader<'a>
        ensures { (result.src ≡ envelope.entry) × (result.at ≡ 0) }
    {
        Reader {
            src: envelope,
            at: 0,
        }
    }

    // The characters of a string of a row, wherever the reader stands.
    pub fn text(self, text: rows::Text) -> &'a [u8]
        ensures { result.now ≡ text_of self.entry.src.now text.place text.len }
    {
        text_of(self.src, text.place, text.len)
    }
}

// The characters of a string of a row, for a caller that has no reader.
pub fn read_text(envelope: &[u8], at: usize, len: usize) -> &[u8]
    ensures { result.now ≡ text_of envelope.now at len }
{
    Reader::new(envelope).text(rows::Text { place: at, len })
}
