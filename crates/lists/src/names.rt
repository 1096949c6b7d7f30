// What a list of names makes of columns: `rename` gives each column a name.
ghost use Rattle.std.specs.Prelude.{◌≡◌, List, length, Some, ◌==◌};
ghost use Rattle.grammar.specs.Tree.{Name};
ghost use Rattle.schema.specs.Columns.{schema_of};
ghost use Rattle.typing.specs.Checker.{renamings};
ghost use Rattle.inference.specs.Views.{answered};
ghost use Rattle.lists.specs.Links.{Linked};
ghost use Rattle.lists.specs.Elements.{IsName};
ghost use Rattle.lists.specs.Naming.{span_said, RenamesOne};
ghost use Rattle.lists.specs.Walks.{walked};
ghost use Rattle.tree.specs.Holds.{said};

use crate::arena::Elements;
use domain::Domain;
use fault::{Fault, Place, Rule};
use inference::extend;
use schema::Schema;
use tree::{Node, What};
use words::Span;

// The part of the text that a name's node has.
pub fn span_said(what: What) -> Option<Span>
    ensures { result ≡ span_said what }
{
    match what {
        What::Name(span) => Some(span),
        _ => None,
    }
}

// Whether a list has exactly so many elements. It is walked no further than to one too many, since it may be as long as the arena.
fn as_many(nodes: &[Node], first: usize, count: usize) -> bool
    ensures { result ≡ (length (walked nodes.now (Some first)) == count) }
{
    Elements::of(nodes, first)
        .take(count.saturating_add(1))
        .count()
        == count
}

// One column more, of this domain, under the name that the node has; a name that was given before is a fault.
fn rename_one(node: Node, domain: Domain, fresh: Schema, text: &[u8]) -> Result<Schema, Fault>
    ensures { RenamesOne text.now (said node) domain (schema_of text.now fresh) (answered (schema_of text.now) result) }
{
    let span = span_said(node.what).ok_or(node.place.fault(Rule::NameNotFound))?;
    extend(fresh, span, domain, text, node.place, node.place)
}

// The columns of a rename: as many names as columns, none twice.
pub fn rename(
    nodes: &[Node],
    first: usize,
    schema: &Schema,
    text: &[u8],
    at: Place,
) -> Result<Schema, Fault>
    ensures { (names : List Name) → Linked (IsName text.now) nodes.now first names → answered (schema_of text.now) result ≡ renamings (schema_of text.now schema.now) names at }
{
    if !as_many(nodes, first, schema.width()) {
        return Err(at.fault(Rule::OperandMismatch));
    }
    let mut fresh = Schema::empty();
    for (name, attribute) in Elements::of(nodes, first).zip(schema.attributes()) {
        fresh = rename_one(name, attribute.domain, fresh, text)?;
    }
    Ok(fresh)
}
