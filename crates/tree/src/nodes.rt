// What a node says, where its text begins, and which node follows it in a list.
ghost use Rattle.std.specs.Prelude.{◌≡◌};
ghost use Rattle.tree.specs.Kinds.{kind_of};

use domain::Domain;
use fault::Place;
use words::{Comparison, Logic, Product, Span, Sum};

// A case for each case of the tree, with the indexes of its children in the grammar's order; of a list its first element.
// Indexes and no boxes: the host lends the arena, and nothing here allocates.
#[derive(Clone, Copy, Debug, PartialEq, Eq)]
pub enum What {
    Nothing,
    Program(u16),
    Statements(u16),
    Define(u16, u16),
    Type(u16),
    AtomicType(Domain),
    TableType(u16),
    Attribute(u16, u16),
    Assign(u16, u16),
    IfThen(u16, u16),
    IfThenElse(u16, u16, u16),
    While(u16, u16),
    Read(u16, u16),
    Write(u16, u16),
    // An absent specifier is a node as well, so that it is a case and no `Option` inside one.
    NoSpecifier,
    Specifier(u16),
    Name(Span),
    Integer(i64),
    Text(Span),
    Truth(bool),
    Tuple(u16),
    TableOfTuples(u16),
    TableOfTypes(u16),
    Logical(Logic, u16, u16),
    Compared(Comparison, u16, u16),
    Summed(Sum, u16, u16),
    Multiplied(Product, u16, u16),
    Joined(u16, u16, u16),
    Negative(u16),
    Negated(u16),
    Projected(u16, u16),
    Renamed(u16, u16),
    Selected(u16, u16),
    Existing(u16, u16),
    Everywhere(u16, u16),
    Updated(u16, u16, u16),
    Extended(u16, u16, u16, u16),
}

// A node: `next` is the entry of the element behind it in its list.
#[derive(Clone, Copy, Debug, PartialEq, Eq)]
pub struct Node {
    pub what: What,
    pub place: Place,
    pub next: Option<u16>,
}

// An entry of the arena that holds no node, and what is read where there is no entry. A case and no `Option`: the rules ask for cleared entries.
pub const EMPTY: Node = Node {
    what: What::Nothing,
    place: Place::NOWHERE,
    next: None,
};

impl What {
    // The number of the node's kind, 1 to 29; 0 where there is no node. A number, since the rules' format of nodes names their kinds by it.
    pub fn kind(self) -> u8
        ensures { result ≡ kind_of self }
    {
        match self {
            What::Nothing => 0,
            What::Assign(_, _) => 1,
            What::AtomicType(_) => 2,
            What::Attribute(_, _) => 3,
            What::Truth(_) => 4,
            What::Compared(_, _, _) => 5,
            What::Define(_, _) => 6,
            What::Extended(_, _, _, _) => 7,
            What::Name(_) => 8,
            What::IfThen(_, _) | What::IfThenElse(_, _, _) => 9,
            What::Integer(_) => 10,
            What::Joined(_, _, _) => 11,
            What::Logical(_, _, _) => 12,
            What::Summed(_, _, _) | What::Multiplied(_, _, _) => 13,
            What::Negative(_) | What::Negated(_) => 14,
            What::Program(_) => 15,
            What::Projected(_, _) => 16,
            What::Read(_, _) => 17,
            What::Renamed(_, _) => 18,
            What::Selected(_, _) | What::Existing(_, _) | What::Everywhere(_, _) => 19,
            What::NoSpecifier | What::Specifier(_) => 20,
            What::Statements(_) => 21,
            What::Text(_) => 22,
            What::TableOfTuples(_) | What::TableOfTypes(_) => 23,
            What::TableType(_) => 24,
            What::Tuple(_) => 25,
            What::Type(_) => 26,
            What::Updated(_, _, _) => 27,
            What::While(_, _) => 28,
            What::Write(_, _) => 29,
        }
    }
}
