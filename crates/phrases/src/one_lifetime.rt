// Lists by a reader that takes only parsers whose text and arena are lent for one lifetime; `lists::list` asks of its reader that it takes every parser.
ghost use Rattle.std.specs.Prelude.{ℕ, ◌<◌, OnOk};
ghost use Rattle.grammar.specs.Promise.{any_token};
ghost use Rattle.grammar.specs.Readers.{read_level, rest, brackets_at};
ghost use Rattle.phrases.specs.Held.{Held};
ghost use Rattle.phrases.specs.declared.sorts.Listed.{Listed};
ghost use Rattle.phrases.specs.Sorts.{level_of, item_reader};
ghost use Rattle.phrases.specs.Elements.{Moves, Keeps, Reads};
ghost use Rattle.phrases.specs.States.{SameArena, SameLength, Numbers, NumbersOn, AnswersAs, AnswersOn};

use crate::lists::link;
use crate::parsers::Parser;
use crate::sorts::Wanted;
use fault::Fault;
use words::Sign;

// A list of one element or more, each read by `item`; the answer is its first.
pub fn list<'a, F: for<'b> Fn(&mut Parser<'b, 'b>) -> Result<u16, Fault>>(
    parser: &mut Parser<'a, 'a>,
    item: F,
) -> Result<u16, Fault>
    requires callable { F.IsAlwaysCallable item }
    requires moves { Moves F.Fn item }
    ensures lent { SameArena parser.old parser.new }
    ensures long { Keeps F.Fn item → SameLength parser.old parser.new }
    ensures numbers { OnOk result (Numbers parser.old parser.new) }
    ensures answer { (listed : Listed) → Reads F.Fn item listed → (n : ℕ) → AnswersAs (Held (level_of listed)) (read_level (item_reader n listed) (brackets_at any_token n) (level_of listed)) parser.old parser.new result }
{
    let first = item(parser)?;
    more_items(parser, item, first)
}

// The elements behind a comma each.
fn more_items<'a, F: for<'b> Fn(&mut Parser<'b, 'b>) -> Result<u16, Fault>>(
    parser: &mut Parser<'a, 'a>,
    item: F,
    first: u16,
) -> Result<u16, Fault>
    requires begun { 0 < parser.old.count }
    requires callable { F.IsAlwaysCallable item }
    requires moves { Moves F.Fn item }
    ensures lent { SameArena parser.old parser.new }
    ensures long { Keeps F.Fn item → SameLength parser.old parser.new }
    ensures numbers { OnOk result (NumbersOn parser.old parser.new) }
    ensures answer { (listed : Listed) → Reads F.Fn item listed → (n : ℕ) → AnswersOn (Held (level_of listed)) (rest (item_reader n listed) (brackets_at any_token n) (level_of listed)) first parser.old parser.new result }
{
    if !parser.sees(Wanted::Sign(Sign::Comma)) {
        return Ok(first);
    }
    let last = parser.count - 1;
    parser.advance()?;
    let next = item(parser)?;
    link(parser.nodes, last, next);
    more_items(parser, item, first)
}
