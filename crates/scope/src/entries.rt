// The two kinds of entries: attributes, which may be nameless, and variables.
ghost use Rattle.std.specs.Prelude.{◌≡◌};
ghost use Rattle.words.specs.Spans.{part_of, bytes_of};
ghost use Rattle.schema.specs.Columns.{name_of};
ghost use Rattle.scope.specs.Names.{called};

use crate::chain::Named;
use crate::variables::Variable;
use schema::Attribute;

// Whether bytes that may be missing are this name.
fn is_called(spelling: Option<&[u8]>, name: &[u8]) -> bool
    ensures { result ≡ called (bytes_of spelling.entry) name.now }
{
    spelling.is_some_and(|bytes| bytes == name)
}

impl Named for Attribute {
    ghost spelling = { λ text a. name_of text a };

    fn is(&self, text: &[u8], name: &[u8]) -> bool {
        is_called(self.name(text), name)
    }
}

impl Named for Variable {
    ghost spelling = { λ text v. part_of v.name text };

    fn is(&self, text: &[u8], name: &[u8]) -> bool {
        is_called(self.name.of(text), name)
    }
}
