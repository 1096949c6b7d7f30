// The columns of table constants: of a list of types or of the first tuple, and whether further tuples have the same.
ghost use Rattle.std.specs.Prelude.{◌≡◌, ℕ, List, map, Some};
ghost use Rattle.std.specs.Option.{option_map};
ghost use Rattle.domain.specs.declared.Domain.{Domain as AnyDomain};
ghost use Rattle.grammar.specs.Tree.{Tuple};
ghost use Rattle.schema.specs.Columns.{held};
ghost use Rattle.schema.specs.Building.{with_all};
ghost use Rattle.tree.specs.declared.nodes.What.TheVariants.{Tuple as Tupled};
ghost use Rattle.typing.specs.Checker.{fitting};
ghost use Rattle.lists.specs.Links.{Linked};
ghost use Rattle.lists.specs.Elements.{unnamed, domain_said, IsDomain, IsTuple};
ghost use Rattle.lists.specs.Walks.{walked};
ghost use Rattle.lists.specs.Fits.{is_domain, constants_fit};

use crate::arena::Elements;
use domain::Domain;
use fault::{Fault, Rule};
use schema::{Attribute, Schema};
use tree::{Node, What};

// The domain of a type or a constant.
pub fn domain_said(what: What) -> Option<Domain>
    ensures { result ≡ domain_said what }
{
    match what {
        What::AtomicType(domain) => Some(domain),
        What::Integer(_) => Some(Domain::Integer),
        What::Text(_) => Some(Domain::String),
        What::Truth(_) => Some(Domain::Boolean),
        _ => None,
    }
}

// The schema with a nameless column more for each type or constant of the list; none if there are too many.
pub fn columns(nodes: &[Node], first: usize, schema: Schema) -> Option<Schema>
    ensures { (ds : List AnyDomain) → Linked IsDomain nodes.now first ds → option_map held result ≡ with_all (held schema) (map unnamed ds) }
{
    let mut longer = schema;
    for node in Elements::of(nodes, first) {
        let domain = domain_said(node.what)?;
        longer = longer.with(Attribute { name: None, domain })?;
    }
    Some(longer)
}

// Whether it is a type or a constant of the domain.
fn says_domain(what: What, domain: Domain) -> bool
    ensures { result ≡ is_domain (domain_said what) domain }
{
    domain_said(what) == Some(domain)
}

// Whether the constants of a list have the domains of these columns, one by one.
fn constants_fit(nodes: &[Node], first: usize, attributes: &[Attribute]) -> bool
    ensures { result ≡ constants_fit (walked nodes.now (Some first)) attributes.now }
{
    let mut constants = Elements::of(nodes, first);
    for attribute in attributes {
        let constant = constants.next();
        if !constant.is_some_and(|constant| says_domain(constant.what, attribute.domain)) {
            return false;
        }
    }
    constants.next().is_none()
}

// Whether it is a tuple whose constants have the domains of these columns.
fn tuple_fits(nodes: &[Node], what: What, attributes: &[Attribute]) -> bool
    ensures { (start : ℕ) → what ≡ Tupled start → result ≡ constants_fit (walked nodes.now (Some start)) attributes.now }
{
    match what {
        What::Tuple(first) => constants_fit(nodes, usize::from(first), attributes),
        _ => false,
    }
}

// The first tuple of a list that has not the domains of these columns is a fault.
pub fn tuples_fit(nodes: &[Node], first: usize, attributes: &[Attribute]) -> Result<(), Fault>
    ensures { (tuples : List Tuple) → Linked (IsTuple nodes.now) nodes.now first tuples → result ≡ fitting (map (λ a. a.domain) attributes.now) tuples }
{
    for tuple in Elements::of(nodes, first) {
        if !tuple_fits(nodes, tuple.what, attributes) {
            return Err(tuple.place.fault(Rule::OperandMismatch));
        }
    }
    Ok(())
}
