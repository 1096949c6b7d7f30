// What operators ask of the types of their operands.
ghost use Rattle.std.specs.Prelude.{◌≡◌, ℕ, List, Ok};
ghost use Rattle.domain.specs.declared.Domain.TheVariants.{Boolean};
ghost use Rattle.fault.specs.declared.rules.Rule.TheVariants.{OperandMismatch};
ghost use Rattle.schema.specs.Columns.{schema_of};
ghost use Rattle.schema.specs.Kinds.{type_of, ValueType.atom};
ghost use Rattle.typing.specs.Environments.{fault as failing};
ghost use Rattle.typing.specs.Tables.{is_atom, both_atoms, ordered as has_order, both_ordered, comparable as can_compare};
ghost use Rattle.typing.specs.Checker.{ask, columns_of};
ghost use Rattle.inference.specs.Views.{answered};

use domain::Domain;
use fault::{Fault, Place, Rule};
use schema::{Kind, Schema, same_type};
use words::Comparison;

// Whether it is an atom of the domain.
pub fn is_atom(kind: &Kind, domain: Domain) -> bool
    ensures { (text : List ℕ) → result ≡ is_atom domain (type_of text kind.now) }
{
    match kind {
        Kind::Atom(own) => *own == domain,
        Kind::Table(_) => false,
    }
}

fn both_atoms(left: &Kind, right: &Kind, domain: Domain) -> bool
    ensures { (text : List ℕ) → result ≡ both_atoms domain (type_of text left.now) (type_of text right.now) }
{
    is_atom(left, domain) && is_atom(right, domain)
}

// The answer, if the operands are as asked; else a fault at the operator.
#[tactic(auto, unfolding(typing::specs::Checker::ask))]
fn answer_if(as_asked: bool, at: Place, answer: Kind) -> Result<Kind, Fault>
    ensures { (text : List ℕ) → answered (type_of text) result ≡ ask as_asked (failing OperandMismatch at) (Ok (type_of text answer)) }
{
    if as_asked {
        Ok(answer)
    } else {
        Err(at.fault(Rule::OperandMismatch))
    }
}

// The result, if the operand is an atom of the domain.
pub fn as_atom(kind: &Kind, domain: Domain, at: Place, answer: Kind) -> Result<Kind, Fault>
    ensures { (text : List ℕ) → answered (type_of text) result ≡ ask (is_atom domain (type_of text kind.now)) (failing OperandMismatch at) (Ok (type_of text answer)) }
{
    answer_if(is_atom(kind, domain), at, answer)
}

// An atom of the domain, if both operands are: `and`, `or`, sums and products.
pub fn as_atoms(left: &Kind, right: &Kind, domain: Domain, at: Place) -> Result<Kind, Fault>
    ensures { (text : List ℕ) → answered (type_of text) result ≡ ask (both_atoms domain (type_of text left.now) (type_of text right.now)) (failing OperandMismatch at) (Ok (atom domain)) }
{
    answer_if(both_atoms(left, right, domain), at, Kind::Atom(domain))
}

// Integers and strings have an order.
fn ordered(domain: Domain) -> bool
    ensures { result ≡ has_order domain }
{
    match domain {
        Domain::Integer | Domain::String => true,
        Domain::Boolean => false,
    }
}

fn both_ordered(left: &Kind, right: &Kind) -> bool
    ensures { (text : List ℕ) → result ≡ both_ordered (type_of text left.now) (type_of text right.now) }
{
    match left {
        Kind::Atom(domain) => ordered(*domain) && is_atom(right, *domain),
        Kind::Table(_) => false,
    }
}

fn comparable(comparison: Comparison, left: &Kind, right: &Kind, text: &[u8]) -> bool
    ensures { result ≡ can_compare comparison (type_of text.now left.now) (type_of text.now right.now) }
{
    match comparison {
        Comparison::Equal | Comparison::NotEqual => same_type(left, text, right, text),
        Comparison::Greater | Comparison::GreaterEqual | Comparison::Less | Comparison::LessEqual =>
            both_ordered(left, right),
    }
}

// A boolean, if the operands can be compared.
pub fn compare(
    comparison: Comparison,
    left: &Kind,
    right: &Kind,
    text: &[u8],
    at: Place,
) -> Result<Kind, Fault>
    ensures { answered (type_of text.now) result ≡ ask (can_compare comparison (type_of text.now left.now) (type_of text.now right.now)) (failing OperandMismatch at) (Ok (atom Boolean)) }
{
    answer_if(
        comparable(comparison, left, right, text),
        at,
        Kind::Atom(Domain::Boolean),
    )
}

// The schema, if it is a table.
#[tactic(auto, unfolding(typing::specs::Checker::columns_of))]
pub fn columns_of(kind: Kind, at: Place) -> Result<Schema, Fault>
    ensures { (text : List ℕ) → answered (schema_of text) result ≡ columns_of (type_of text kind) at }
{
    match kind {
        Kind::Atom(_) => Err(at.fault(Rule::OperandMismatch)),
        Kind::Table(schema) => Ok(schema),
    }
}
