// What operators make of the columns of their operands.
ghost use Rattle.std.specs.Prelude.{◌≡◌, [], ◌∷◌, Some, Ok};
ghost use Rattle.words.specs.Spans.{part_of, bytes_of};
ghost use Rattle.words.specs.Tokens.{Bytes};
ghost use Rattle.schema.specs.Columns.{schema_of};
ghost use Rattle.schema.specs.Spelled.{columns_of};
ghost use Rattle.scope.specs.Chains.{find};
ghost use Rattle.typing.specs.Environments.{is_column};
ghost use Rattle.typing.specs.Tables.{has as has_name, meets_in, meet};
ghost use Rattle.typing.specs.Checker.{bind, or_absent, together, with_column};
ghost use Rattle.inference.specs.Views.{answered};

use domain::Domain;
use fault::{Fault, Place, Rule};
use schema::{Attribute, Columns, Schema};
use scope::newest;
use words::Span;

// Whether a column has the name.
pub fn has(columns: Columns, name: &[u8]) -> bool
    ensures { result ≡ has_name (columns_of columns.entry) name.now }
{
    newest(columns.attributes, columns.text, name).is_some()
}

// Whether a name, if there is one, is a column's.
// No `is_some_and`: what it answers of a closure that captures a struct of references was not proved, in three forms.
fn meets_in(right: Columns, name: Option<&[u8]>) -> bool
    ensures { result ≡ meets_in (columns_of right.entry) (bytes_of name.entry) }
{
    match name {
        Some(name) => has(right, name),
        None => false,
    }
}

// Whether a name on the left is one on the right.
fn meets(left: Columns, right: Columns) -> bool
    ensures { result ≡ meet (columns_of left.entry) (columns_of right.entry) }
{
    left.attributes
        .iter()
        .any(|attribute| meets_in(right, attribute.name(left.text)))
}

// The columns of a join: the left ones, then the right. Too many, or a common name, is a fault at the operator.
// Schemas and no `Columns`, here and below: the answer is a schema that goes on from the left one.
pub fn join(left: Schema, right: &Schema, text: &[u8], at: Place) -> Result<Schema, Fault>
    ensures { answered (schema_of text.now) result ≡ together (schema_of text.now left) (schema_of text.now right.now) at }
{
    let all = left.append(right).ok_or(at.fault(Rule::TooMany))?;
    if meets(left.columns(text), right.columns(text)) {
        return Err(at.fault(Rule::RepeatedName));
    }
    Ok(all)
}

// The columns of an extension: one more at the end. No room is a fault at the operator, an old name one at the name.
pub fn extend(
    schema: Schema,
    name: Span,
    domain: Domain,
    text: &[u8],
    operator: Place,
    name_at: Place,
) -> Result<Schema, Fault>
    ensures { (n : Bytes) → part_of name text.now ≡ Some n → answered (schema_of text.now) result ≡ with_column (schema_of text.now schema) n domain operator name_at }
{
    let attribute = Attribute {
        name: Some(name),
        domain,
    };
    let longer = schema.with(attribute).ok_or(operator.fault(Rule::TooMany))?;
    if meets_in(schema.columns(text), attribute.name(text)) {
        return Err(name_at.fault(Rule::RepeatedName));
    }
    Ok(longer)
}

// The domain of the column with the name, which an update sets.
pub fn column_domain(columns: Columns, name: &[u8], at: Place) -> Result<Domain, Fault>
    ensures { result ≡ bind (or_absent (find (is_column name.now) (columns_of columns.entry ∷ [])) at) (λ f. Ok f.entry.domain) }
{
    let found = newest(columns.attributes, columns.text, name);
    let position = found.ok_or(at.fault(Rule::NameNotFound))?;
    Ok(columns.attributes[position].domain)
}
