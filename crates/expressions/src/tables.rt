// Table constants: tuples, or the types of a table without rows.
ghost use Rattle.std.specs.Prelude.{◌≡◌, ℕ, ◌==◌};
ghost use Rattle.words.specs.Tokens.{Terminal.sign};
ghost use Rattle.words.specs.declared.tokens.Sign.TheVariants.{LeftParenthesis};
ghost use Rattle.grammar.specs.Parts.{code_in};
ghost use Rattle.grammar.specs.Promise.{any_token};
ghost use Rattle.grammar.specs.Readers.{read_level, brackets_at};
ghost use Rattle.phrases.specs.Held.{Held};
ghost use Rattle.phrases.specs.Sorts.{level_of, item_reader};
ghost use Rattle.expressions.specs.Starts.{instance_of, listed_of};
ghost use Rattle.words.specs.Views.{spoken};
ghost use Rattle.phrases.specs.Places.{pays_ahead};
ghost use Rattle.phrases.specs.States.{AtToken, code_ahead, Follows};
ghost use Rattle.expressions.specs.Shapes.{Expressed, table_reader};

use crate::sorts::Instance;
use fault::Fault;
use phrases::Parser;
use phrases::leaves::leaf;
use phrases::lists::{list, tuple_const};
use phrases::sorts::{Leaf, Wanted};
use words::Sign;

// A table constant has tuples where it begins with a parenthesis, else types.
fn instance(parser: &Parser<'_, '_>) -> Instance
    ensures { result ≡ instance_of (code_in (sign LeftParenthesis) == code_ahead (spoken parser.now.ahead.token)) }
{
    if parser.sees(Wanted::Sign(Sign::LeftParenthesis)) {
        Instance::Tuples
    } else {
        Instance::Types
    }
}

// The answer is the first of them.
fn elements(parser: &mut Parser<'_, '_>, instance: Instance) -> Result<u16, Fault>
    ensures { (n : ℕ) → let listed = listed_of instance in Follows (Held (level_of listed)) (read_level (item_reader n listed) (brackets_at any_token n) (level_of listed)) parser.old parser.new result }
{
    match instance {
        Instance::Tuples => list(parser, tuple_const),
        Instance::Types => list(parser, |parser| leaf(parser, Leaf::Type)),
    }
}

// table-const → { tuple-list | atomic-type-list }
pub fn table_const(parser: &mut Parser<'_, '_>, depth: u8) -> Result<u16, Fault>
    requires token { AtToken parser.old }
    ensures { Follows Expressed (table_reader depth) parser.old parser.new result }
{
    let at = parser.ahead;
    parser.advance()?;
    let instance = instance(parser);
    let first = elements(parser, instance)?;
    parser.expect(Wanted::Sign(Sign::RightBrace))?;
    Ok(parser.put(instance.node(first), at))
}
