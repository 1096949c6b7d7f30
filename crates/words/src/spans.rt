// A part of a script's text by its numbers: what trees, schemas and literals hold in place of a reference.
ghost use Rattle.std.specs.Prelude.{◌≡◌};
ghost use Rattle.words.specs.Spans.{part_of, bytes_of};

#[derive(Clone, Copy, Debug, Default, PartialEq, Eq)]
pub struct Span {
    pub start: u16,
    pub len: u8,
}

impl Span {
    // The bytes in the text, or none where the span does not lie in it.
    pub fn of<'a>(self, text: &'a [u8]) -> Option<&'a [u8]>
        ensures { bytes_of result ≡ part_of self text.now }
    {
        let start = self.start as usize;
        let end = start + self.len as usize;
        text.get(start..end)
    }
}
