// What a line shows: values whose strings are parts of the script or of the strings read.
ghost use Rattle.std.specs.Prelude.{◌≡◌, ◌≤◌, length};
ghost use Rattle.fault.specs.Limits.{string_bytes};
ghost use Rattle.listing.specs.Seen.{part};
ghost use Rattle.lines.specs.Shown.{text_of};

use words::Span;

// The bytes that strings are parts of: the script's text, and the pool of strings read.
#[derive(Clone, Copy)]
pub struct Sources<'a> {
    pub script: &'a [u8],
    pub pool: &'a [u8],
}

// A string: a literal of the script, or one that was read.
#[derive(Clone, Copy)]
pub enum Text {
    Literal(Span),
    Read(Span),
}

// As a cell of a listing, but for its strings: a generic enum would save these lines, and give every contract a type argument.
#[derive(Clone, Copy)]
pub enum Shown {
    Integer(i64),
    String(Text),
    Boolean(bool),
}

// The part of some bytes that a span names, as far as there are any.
pub fn part<'a>(span: Span, bytes: &'a [u8]) -> &'a [u8]
    ensures value { result.now ≡ part bytes.now span }
    ensures short { length result.now ≤ string_bytes }
{
    let rest = &bytes[bytes.len().min(span.start as usize)..];
    let length = rest.len().min(span.len as usize);
    &rest[..length]
}

impl Text {
    // The bytes of the string.
    pub fn of<'a>(self, sources: Sources<'a>) -> &'a [u8]
        ensures value { result.now ≡ text_of sources.entry self }
        ensures short { length result.now ≤ string_bytes }
    {
        match self {
            Text::Literal(span) => part(span, sources.script),
            Text::Read(span) => part(span, sources.pool),
        }
    }
}
