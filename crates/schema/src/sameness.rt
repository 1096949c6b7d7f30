// When two types are the same: equally many attributes, and one by one the domains agree and the names agree or one is nameless.
// Each side has its own text, since a supplied heading is compared with a script's schema.
ghost use Rattle.std.specs.Prelude.{◌≡◌, true, ◌↔◌};
ghost use Rattle.words.specs.Spans.{bytes_of};
ghost use Rattle.schema.specs.Columns.{column_of, schema_of};
ghost use Rattle.schema.specs.Kinds.{type_of};
ghost use Rattle.schema.specs.Spelled.{columns_of};
ghost use Rattle.schema.specs.Sameness.{agree, same_column, same_columns, same_type, Same, SameType};

use crate::attributes::Attribute;
use crate::columns::Columns;
use crate::kinds::Kind;
use crate::schemas::Schema;

fn names_agree(left: Option<&[u8]>, right: Option<&[u8]>) -> bool
    ensures { result ≡ agree (bytes_of left.entry) (bytes_of right.entry) }
{
    match (left, right) {
        (Some(ours), Some(theirs)) => ours == theirs,
        _ => true,
    }
}

fn same_attribute(left: Attribute, left_text: &[u8], right: Attribute, right_text: &[u8]) -> bool
    ensures { result ≡ same_column (column_of left_text.now left) (column_of right_text.now right) }
{
    left.domain == right.domain && names_agree(left.name(left_text), right.name(right_text))
}

fn same_columns(left: Columns, right: Columns) -> bool
    ensures { result ≡ same_columns (columns_of left.entry) (columns_of right.entry) }
{
    left.attributes.len() == right.attributes.len()
        && left.attributes.iter().zip(right.attributes).all(|(ours, theirs)| same_attribute(
            *ours, left.text, *theirs, right.text,
        ))
}

// Whether two schemas, each with its names in a text, are the same.
pub fn same_schema(left: &Schema, left_text: &[u8], right: &Schema, right_text: &[u8]) -> bool
    ensures value { result ≡ same_columns (schema_of left_text.now left.now) (schema_of right_text.now right.now) }
    ensures same { result ≡ true ↔ Same (schema_of left_text.now left.now) (schema_of right_text.now right.now) }
{
    same_columns(left.columns(left_text), right.columns(right_text))
}

// Whether two types, each with its names in a text, are the same. An atom is never a table.
pub fn same_type(left: &Kind, left_text: &[u8], right: &Kind, right_text: &[u8]) -> bool
    ensures value { result ≡ same_type (type_of left_text.now left.now) (type_of right_text.now right.now) }
    ensures same { result ≡ true ↔ SameType (type_of left_text.now left.now) (type_of right_text.now right.now) }
{
    match (left, right) {
        (Kind::Atom(ours), Kind::Atom(theirs)) => ours == theirs,
        (Kind::Table(ours), Kind::Table(theirs)) => {
            same_schema(ours, left_text, theirs, right_text)
        }
        _ => false,
    }
}
