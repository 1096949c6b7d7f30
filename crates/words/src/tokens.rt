// What a script's text is made of. Tokens that share a production of the grammar are one case with an enum of its own.
use domain::Domain;
use fault::Place;

// The words that stand in one production each.
#[derive(Clone, Copy, Debug, PartialEq, Eq)]
pub enum Word {
    Program,
    End,
    Table,
    If,
    Then,
    Else,
    While,
    Do,
    Read,
    Write,
    Join,
    Not,
    Project,
    Select,
    Exists,
    All,
    Update,
    Extend,
    Rename,
}

// `and` and `or`.
#[derive(Clone, Copy, Debug, PartialEq, Eq)]
pub enum Logic {
    And,
    Or,
}

// `==`, `!=`, `>`, `>=`, `<` and `<=`.
#[derive(Clone, Copy, Debug, PartialEq, Eq)]
pub enum Comparison {
    Equal,
    NotEqual,
    Greater,
    GreaterEqual,
    Less,
    LessEqual,
}

// `+` and `-`.
#[derive(Clone, Copy, Debug, PartialEq, Eq)]
pub enum Sum {
    Plus,
    Minus,
}

// `*` and `/`.
#[derive(Clone, Copy, Debug, PartialEq, Eq)]
pub enum Product {
    Times,
    Divide,
}

// The signs that are no operator.
#[derive(Clone, Copy, Debug, PartialEq, Eq)]
pub enum Sign {
    LeftParenthesis,
    RightParenthesis,
    LeftBracket,
    RightBracket,
    LeftBrace,
    RightBrace,
    Semicolon,
    Comma,
    Assign,
}

// A token; names, integers and strings are parts of the script, a string without its quotes.
#[derive(Clone, Copy, Debug, PartialEq, Eq)]
pub enum Token<'a> {
    End,
    Word(Word),
    Domain(Domain),
    Logic(Logic),
    Truth(bool),
    Sign(Sign),
    Comparison(Comparison),
    Sum(Sum),
    Product(Product),
    Name(&'a [u8]),
    Integer(&'a [u8]),
    Text(&'a [u8]),
}

// A token and where it begins.
#[derive(Clone, Copy, Debug, PartialEq, Eq)]
pub struct Lexeme<'a> {
    pub token: Token<'a>,
    pub place: Place,
}
