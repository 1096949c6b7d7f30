// Columns: attributes together with the text that spells their names.
ghost use Rattle.std.specs.Prelude.{◌≡◌};
ghost use Rattle.schema.specs.Columns.{held};

use crate::attributes::Attribute;
use crate::schemas::Schema;

#[derive(Clone, Copy)]
pub struct Columns<'a> {
    pub attributes: &'a [Attribute],
    pub text: &'a [u8],
}

impl Schema {
    // Its columns, where this text spells the names.
    pub fn columns<'a>(&'a self, text: &'a [u8]) -> Columns<'a>
        ensures attributes { result.attributes.now ≡ held self.now }
        ensures text { result.text.now ≡ text.now }
    {
        Columns {
            attributes: self.attributes(),
            text,
        }
    }
}
