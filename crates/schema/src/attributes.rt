// An attribute: a name, which is a part of a text, or none, and a domain.
ghost use Rattle.std.specs.Prelude.{◌≡◌};
ghost use Rattle.words.specs.Spans.{bytes_of};
ghost use Rattle.schema.specs.Columns.{name_of};
ghost use Rattle.schema.specs.Building.{blank};

use domain::Domain;
use words::Span;

#[derive(Clone, Copy)]
pub struct Attribute {
    pub name: Option<Span>,
    pub domain: Domain,
}

impl Attribute {
    // The bytes of its name; none if it is nameless, or its name does not lie in the text.
    pub fn name<'a>(self, text: &'a [u8]) -> Option<&'a [u8]>
        ensures { bytes_of result ≡ name_of text.now self }
    {
        let span = self.name?;
        span.of(text)
    }
}

// The attribute that a cleared buffer holds.
impl Default for Attribute {
    ghost is_default = { λ a. a ≡ blank };

    fn default() -> Attribute {
        Attribute {
            name: None,
            domain: Domain::Integer,
        }
    }
}
