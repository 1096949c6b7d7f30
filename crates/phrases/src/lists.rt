// Lists with commas: names, atomic types, atomic constants, attributes, tuples. Each element names the next one.
ghost use Rattle.std.specs.Prelude.{◌≡◌, ℕ, ◌<◌, length, OnOk, slice_set};
ghost use Rattle.grammar.specs.Parts.{Level.attribute_level, Level.tuple_level};
ghost use Rattle.grammar.specs.Promise.{any_token};
ghost use Rattle.grammar.specs.Readers.{read_level, rest, read_attribute, read_tuple, brackets_at};
ghost use Rattle.phrases.specs.Held.{Held};
ghost use Rattle.phrases.specs.declared.sorts.Listed.{Listed};
ghost use Rattle.phrases.specs.Sorts.{level_of, item_reader, relinked};
ghost use Rattle.phrases.specs.Elements.{Moves, Keeps, Reads};
ghost use Rattle.phrases.specs.States.{SameArena, SameLength, Numbers, NumbersOn, Follows, AnswersAs, AnswersOn};
ghost use Rattle.tree.specs.Holds.{node_at};

use crate::leaves::leaf;
use crate::parsers::Parser;
use crate::sorts::{Leaf, Listed, Wanted};
use fault::Fault;
use tree::{Node, What};
use words::Sign;

// The element behind another.
pub fn link(nodes: &mut [Node], last: u16, next: u16)
    requires inside { last < length nodes.old }
    ensures { nodes.new ≡ slice_set nodes.old last (relinked (node_at nodes.old last) next) }
{
    nodes[last as usize].next = Some(next);
}

// attr-decl → atomic-type id
pub fn attr_decl(parser: &mut Parser<'_, '_>) -> Result<u16, Fault>
    ensures { Follows (Held attribute_level) read_attribute parser.old parser.new result }
{
    let at = parser.ahead;
    let domain = leaf(parser, Leaf::Type)?;
    let name = leaf(parser, Leaf::Name)?;
    Ok(parser.put(What::Attribute(domain, name), at))
}

// tuple-const → ( atomic-const { , atomic-const } )
pub fn tuple_const(parser: &mut Parser<'_, '_>) -> Result<u16, Fault>
    ensures { (n : ℕ) → Follows (Held tuple_level) (read_tuple (brackets_at any_token n)) parser.old parser.new result }
{
    let at = parser.ahead;
    parser.expect(Wanted::Sign(Sign::LeftParenthesis))?;
    let first = list(parser, |parser| leaf(parser, Leaf::Constant))?;
    parser.expect(Wanted::Sign(Sign::RightParenthesis))?;
    Ok(parser.put(What::Tuple(first), at))
}

// A list of one element or more, each read by `item`; the answer is its first.
// Clauses and no `Follows`, for only the answer asks that `item` reads as the grammar does, and only the length that `item` keeps it.
pub fn list<F: Fn(&mut Parser<'_, '_>) -> Result<u16, Fault>>(
    parser: &mut Parser<'_, '_>,
    item: F,
) -> Result<u16, Fault>
    requires callable { F.IsAlwaysCallable item }
    requires moves { Moves F.Fn item }
    ensures lent { SameArena parser.old parser.new }
    ensures long { Keeps F.Fn item → SameLength parser.old parser.new }
    ensures numbers { OnOk result (Numbers parser.old parser.new) }
    ensures answer { (listed : Listed) → Reads F.Fn item listed → (n : ℕ) → AnswersAs (Held (level_of listed)) (read_level (item_reader n listed) (brackets_at any_token n) (level_of listed)) parser.old parser.new result }
{
    let first = item(parser)?;
    more_items(parser, item, first)
}

// A list of elements of this sort; the answer is its first.
pub fn list_of(parser: &mut Parser<'_, '_>, listed: Listed) -> Result<u16, Fault>
    ensures { (n : ℕ) → Follows (Held (level_of listed)) (read_level (item_reader n listed) (brackets_at any_token n) (level_of listed)) parser.old parser.new result }
{
    match listed {
        Listed::Names => list(parser, |parser| leaf(parser, Leaf::Name)),
        Listed::Types => list(parser, |parser| leaf(parser, Leaf::Type)),
        Listed::Constants => list(parser, |parser| leaf(parser, Leaf::Constant)),
        Listed::Attributes => list(parser, attr_decl),
        Listed::Tuples => list(parser, tuple_const),
    }
}

// The elements behind a comma each.
fn more_items<F: Fn(&mut Parser<'_, '_>) -> Result<u16, Fault>>(
    parser: &mut Parser<'_, '_>,
    item: F,
    first: u16,
) -> Result<u16, Fault>
    requires begun { 0 < parser.old.count }
    requires callable { F.IsAlwaysCallable item }
    requires moves { Moves F.Fn item }
    ensures lent { SameArena parser.old parser.new }
    ensures long { Keeps F.Fn item → SameLength parser.old parser.new }
    ensures numbers { OnOk result (NumbersOn parser.old parser.new) }
    ensures answer { (listed : Listed) → Reads F.Fn item listed → (n : ℕ) → AnswersOn (Held (level_of listed)) (rest (item_reader n listed) (brackets_at any_token n) (level_of listed)) first parser.old parser.new result }
{
    if !parser.sees(Wanted::Sign(Sign::Comma)) {
        return Ok(first);
    }
    let last = parser.count - 1;
    parser.advance()?;
    let next = item(parser)?;
    link(parser.nodes, last, next);
    more_items(parser, item, first)
}
