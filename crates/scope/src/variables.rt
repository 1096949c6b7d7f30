// A variable in scope: its name, a part of the script, and its type.
use schema::Kind;
use words::Span;

#[derive(Clone, Copy)]
pub struct Variable {
    pub name: Span,
    pub kind: Kind,
}
