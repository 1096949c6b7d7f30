// The signs. The remaining bytes are taken apart, two and the rest first, then one and the rest, so that `==` comes before `=`.
ghost use Rattle.std.specs.Prelude.{◌≡◌, ◌<◌, length, Some, IfSome};
ghost use Rattle.words.specs.Spelling.{symbol_at, pair_of, single_of};
ghost use Rattle.words.specs.Fronts.{front_of};
ghost use Rattle.words.specs.Lexing.{symbol_terminal};
ghost use Rattle.words.specs.Views.{spoken};

use crate::tokens::{Comparison, Product, Sign, Sum, Token};

#[derive(Clone, Copy)]
pub enum Symbol {
    Sign(Sign),
    Comparison(Comparison),
    Sum(Sum),
    Product(Product),
}

impl<'a> From<Symbol> for Token<'a> {
    ghost from_gives = { λ x t. spoken t ≡ Some (symbol_terminal x) };

    fn from(symbol: Symbol) -> Token<'a> {
        match symbol {
            Symbol::Sign(sign) => Token::Sign(sign),
            Symbol::Comparison(comparison) => Token::Comparison(comparison),
            Symbol::Sum(sum) => Token::Sum(sum),
            Symbol::Product(product) => Token::Product(product),
        }
    }
}

// A sign, and the bytes behind it.
#[derive(Clone, Copy)]
pub struct Signed<'a> {
    pub symbol: Symbol,
    pub rest: &'a [u8],
}

// Two bytes that are one sign.
fn pair(a: u8, b: u8) -> Option<Symbol>
    ensures { result ≡ pair_of a b }
{
    match (a, b) {
        (b'=', b'=') => Some(Symbol::Comparison(Comparison::Equal)),
        (b'!', b'=') => Some(Symbol::Comparison(Comparison::NotEqual)),
        (b'>', b'=') => Some(Symbol::Comparison(Comparison::GreaterEqual)),
        (b'<', b'=') => Some(Symbol::Comparison(Comparison::LessEqual)),
        _ => None,
    }
}

// One byte that is a sign.
fn single(b: u8) -> Option<Symbol>
    ensures { result ≡ single_of b }
{
    match b {
        b'=' => Some(Symbol::Sign(Sign::Assign)),
        b'>' => Some(Symbol::Comparison(Comparison::Greater)),
        b'<' => Some(Symbol::Comparison(Comparison::Less)),
        b'+' => Some(Symbol::Sum(Sum::Plus)),
        b'-' => Some(Symbol::Sum(Sum::Minus)),
        b'*' => Some(Symbol::Product(Product::Times)),
        b'/' => Some(Symbol::Product(Product::Divide)),
        b'(' => Some(Symbol::Sign(Sign::LeftParenthesis)),
        b')' => Some(Symbol::Sign(Sign::RightParenthesis)),
        b'[' => Some(Symbol::Sign(Sign::LeftBracket)),
        b']' => Some(Symbol::Sign(Sign::RightBracket)),
        b'{' => Some(Symbol::Sign(Sign::LeftBrace)),
        b'}' => Some(Symbol::Sign(Sign::RightBrace)),
        b';' => Some(Symbol::Sign(Sign::Semicolon)),
        b',' => Some(Symbol::Sign(Sign::Comma)),
        _ => None,
    }
}

// The sign that the bytes begin with, and the bytes behind it: two bytes and the rest first, then one and the rest.
pub fn take_symbol<'a>(text: &'a [u8]) -> Option<Signed<'a>>
    ensures shorter { IfSome result (λ s. length s.rest.now < length text.now) }
    ensures value { front_of result ≡ symbol_at text.now }
{
    if let [a, b, rest @ ..] = text {
        if let Some(symbol) = pair(*a, *b) {
            return Some(Signed { symbol, rest });
        }
    }
    match text {
        [a, rest @ ..] => {
            let symbol = single(*a)?;
            Some(Signed { symbol, rest })
        }
        [] => None,
    }
}
