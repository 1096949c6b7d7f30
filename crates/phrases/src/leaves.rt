// The tokens that are a node by themselves: names, atomic types, atomic constants.
ghost use Rattle.std.specs.Prelude.{◌≡◌, ◌+◌, ◌≤◌, length, pos, OnOk};
ghost use Rattle.grammar.specs.Readers.{read_leaf};
ghost use Rattle.words.specs.Views.{spoken};
ghost use Rattle.phrases.specs.Held.{Held, leaf_level};
ghost use Rattle.phrases.specs.Leaves.{within, span_of, integer_of, leaf_node};
ghost use Rattle.phrases.specs.Sorts.{leaf_of, leaf_pays};
ghost use Rattle.phrases.specs.States.{worth, Follows};

use crate::parsers::Parser;
use crate::sorts::Leaf;
use fault::limits::INTEGER_MAX;
use fault::{Fault, Rule};
use tree::What;
use words::numbers::value_within;
use words::{Lexeme, Span, Token};

// A text is so short that both numbers are in range.
fn span(start: u64, bytes: &[u8]) -> Span
    ensures { result ≡ span_of start bytes.now }
{
    Span {
        start: u16::try_from(start).unwrap_or(0),
        len: u8::try_from(bytes.len()).unwrap_or(0),
    }
}

// A token's integer is in range.
fn integer(digits: &[u8]) -> i64
    ensures { result ≡ integer_of digits.now }
{
    value_within(digits, INTEGER_MAX).map_or(0, |value| i64::try_from(value).unwrap_or(0))
}

// The node that the token is, where a leaf of this sort is due.
fn leaf_node(leaf: Leaf, at: Lexeme) -> Option<What>
    ensures { result ≡ leaf_node (leaf_of leaf) (spoken at.entry.token) at.entry.place.byte }
{
    match (leaf, at.token) {
        (Leaf::Name, Token::Name(bytes)) => Some(What::Name(span(at.place.byte as u64, bytes))),
        (Leaf::Type, Token::Domain(domain)) => Some(What::AtomicType(domain)),
        (Leaf::Constant, Token::Integer(digits)) => Some(What::Integer(integer(digits))),
        (Leaf::Constant, Token::Text(bytes)) => Some(What::Text(span(
            at.place.byte as u64 + 1,
            bytes,
        ))),
        (Leaf::Constant, Token::Truth(truth)) => Some(What::Truth(truth)),
        _ => None,
    }
}

// The token ahead as a node.
pub fn leaf(parser: &mut Parser<'_, '_>, leaf: Leaf) -> Result<u16, Fault>
    ensures spare { OnOk result (parser.new.count + worth parser.new + leaf_pays (leaf_of leaf) ≤ parser.old.count + worth parser.old + 1) }
    ensures follows { Follows (Held (leaf_level (leaf_of leaf))) (read_leaf (leaf_of leaf)) parser.old parser.new result }
{
    let at = parser.ahead;
    match leaf_node(leaf, at) {
        Some(what) => {
            parser.advance()?;
            Ok(parser.put(what, at))
        }
        None => Err(parser.refuse(Rule::CannotFollow)),
    }
}
