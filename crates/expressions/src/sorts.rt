// What a token is where an expression goes on or a factor begins.
ghost use Rattle.std.specs.Prelude.{◌≡◌, ◌<◌};
ghost use Rattle.words.specs.Views.{spoken};
ghost use Rattle.expressions.specs.Starts.{start_in, turn_in, level_behind, operator_node, unary_node, negation_node, table_node, bracketed_of};

use tree::What;
use words::{Comparison, Logic, Product, Sign, Sum, Token, Word};

// The levels of the operators, the loosest first; behind a comparison no other one is taken.
#[derive(Clone, Copy)]
pub enum Level {
    Logic,
    Comparison,
    Compared,
    Sum,
    Product,
}

#[derive(Clone, Copy)]
pub enum Operator {
    Logic(Logic),
    Comparison(Comparison),
    Sum(Sum),
    Product(Product),
}

#[derive(Clone, Copy)]
pub enum Turn {
    // A case and no `Option` around the others, so that one `match` has all that may come.
    Stop,
    Join,
    Take(Operator),
}

// The operators that have a bracket before their operand.
#[derive(Clone, Copy)]
pub enum Unary {
    Project,
    Rename,
    Select,
    Exists,
    All,
    Update,
    Extend,
}

// The operators that stand before their operand alone.
#[derive(Clone, Copy)]
pub enum Negation {
    Minus,
    Not,
}

#[derive(Clone, Copy)]
pub enum Start {
    Name,
    Constant,
    Negation(Negation),
    Unary(Unary),
    Parenthesis,
    Brace,
    // As `Turn::Stop`.
    Nothing,
}

// What a factor is that begins with this token.
pub fn begins(token: Token) -> Start
    ensures { result ≡ start_in (spoken token.entry) }
{
    match token {
        Token::Name(_) => Start::Name,
        Token::Integer(_) | Token::Text(_) | Token::Truth(_) => Start::Constant,
        Token::Sum(Sum::Minus) => Start::Negation(Negation::Minus),
        Token::Word(Word::Not) => Start::Negation(Negation::Not),
        Token::Word(Word::Project) => Start::Unary(Unary::Project),
        Token::Word(Word::Rename) => Start::Unary(Unary::Rename),
        Token::Word(Word::Select) => Start::Unary(Unary::Select),
        Token::Word(Word::Exists) => Start::Unary(Unary::Exists),
        Token::Word(Word::All) => Start::Unary(Unary::All),
        Token::Word(Word::Update) => Start::Unary(Unary::Update),
        Token::Word(Word::Extend) => Start::Unary(Unary::Extend),
        Token::Sign(Sign::LeftParenthesis) => Start::Parenthesis,
        Token::Sign(Sign::LeftBrace) => Start::Brace,
        _ => Start::Nothing,
    }
}

// What a level does at this token.
pub fn taken(level: Level, token: Token) -> Turn
    ensures { result ≡ turn_in level (spoken token.entry) }
{
    match (level, token) {
        (Level::Logic, Token::Logic(op)) => Turn::Take(Operator::Logic(op)),
        (Level::Comparison, Token::Comparison(op)) => Turn::Take(Operator::Comparison(op)),
        (Level::Sum, Token::Sum(op)) => Turn::Take(Operator::Sum(op)),
        (Level::Product, Token::Product(op)) => Turn::Take(Operator::Product(op)),
        (Level::Product, Token::Word(Word::Join)) => Turn::Join,
        _ => Turn::Stop,
    }
}

impl Level {
    // The level behind an operator of this one.
    pub fn after(self) -> Level
        ensures { result ≡ level_behind self }
    {
        match self {
            Level::Comparison => Level::Compared,
            _ => self,
        }
    }
}

impl Operator {
    pub fn node(self, left: u16, right: u16) -> What
        ensures { result ≡ operator_node self left right }
    {
        match self {
            Operator::Logic(op) => What::Logical(op, left, right),
            Operator::Comparison(op) => What::Compared(op, left, right),
            Operator::Sum(op) => What::Summed(op, left, right),
            Operator::Product(op) => What::Multiplied(op, left, right),
        }
    }
}

// What stands in an operator's brackets.
#[derive(Clone, Copy)]
pub enum Bracketed {
    Names,
    Condition,
    Update,
    Extend,
}

impl Unary {
    pub fn bracketed(self) -> Bracketed
        ensures { result ≡ bracketed_of self }
    {
        match self {
            Unary::Project | Unary::Rename => Bracketed::Names,
            Unary::Select | Unary::Exists | Unary::All => Bracketed::Condition,
            Unary::Update => Bracketed::Update,
            Unary::Extend => Bracketed::Extend,
        }
    }

    // The node by the entry where its bracket's nodes begin, what the bracket answered, and the operand.
    pub fn node(self, first: u16, argument: u16, operand: u16) -> What
        requires { first < 65535 }
        ensures { result ≡ unary_node self first argument operand }
    {
        match self {
            Unary::Project => What::Projected(argument, operand),
            Unary::Rename => What::Renamed(argument, operand),
            Unary::Select => What::Selected(argument, operand),
            Unary::Exists => What::Existing(argument, operand),
            Unary::All => What::Everywhere(argument, operand),
            Unary::Update => What::Updated(first, argument, operand),
            Unary::Extend => What::Extended(first, first + 1, argument, operand),
        }
    }
}

impl Negation {
    pub fn node(self, operand: u16) -> What
        ensures { result ≡ negation_node self operand }
    {
        match self {
            Negation::Minus => What::Negative(operand),
            Negation::Not => What::Negated(operand),
        }
    }
}

// What a table constant has: tuples, or the types of a table without rows.
#[derive(Clone, Copy)]
pub enum Instance {
    Tuples,
    Types,
}

impl Instance {
    // The node by the entry of the first element.
    pub fn node(self, first: u16) -> What
        ensures { result ≡ table_node self first }
    {
        match self {
            Instance::Tuples => What::TableOfTuples(first),
            Instance::Types => What::TableOfTypes(first),
        }
    }
}
