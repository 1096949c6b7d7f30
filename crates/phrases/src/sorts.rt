// Which phrase is due: a word or sign, a sort of leaf, a sort of list.
use words::{Sign, Word};

#[derive(Clone, Copy, Debug, PartialEq, Eq)]
pub enum Wanted {
    Word(Word),
    Sign(Sign),
}

#[derive(Clone, Copy, Debug, PartialEq, Eq)]
pub enum Leaf {
    Name,
    Type,
    Constant,
}

// The lists that have commas.
#[derive(Clone, Copy, Debug, PartialEq, Eq)]
pub enum Listed {
    Names,
    Types,
    Constants,
    Attributes,
    Tuples,
}
