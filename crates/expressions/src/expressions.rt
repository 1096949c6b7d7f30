// Expressions and factors contain each other: the functions below call each other in a cycle, and each call has less text left, or a tighter level.
// One function for each production, named like it: so the rules ask, also for levels that differ in their operators alone.
// Depth and level are two parameters: brackets and tighter levels go on with the depth alone.
ghost use Rattle.std.specs.Prelude.{◌≡◌, ◌<◌};
ghost use Rattle.words.specs.Views.{spoken};
ghost use Rattle.grammar.specs.Parts.{argument_of};
ghost use Rattle.grammar.specs.Promise.{any_token};
ghost use Rattle.grammar.specs.Readers.{rest, factors_at, brackets_at, expressions_at};
ghost use Rattle.phrases.specs.Places.{pays_ahead};
ghost use Rattle.phrases.specs.States.{AtToken, Follows, GoesOn, opened};
ghost use Rattle.grammar.specs.Parts.{Argument.extend_argument};
ghost use Rattle.expressions.specs.declared.sorts.Level.TheVariants as rank;
ghost use Rattle.expressions.specs.declared.sorts.Turn.TheVariants as turn;
ghost use Rattle.expressions.specs.Starts.{turn_in};
ghost use Rattle.expressions.specs.Shapes.{closing_token, Expressed, Assigned, Inside, level_of, negation_of, unary_of, operand_reader, level_reader, negation_behind, unary_behind, enclosed_behind, inside_reader, assigned_reader, table_reader};

use crate::sorts::{Bracketed, Level, Negation, Operator, Start, Turn, Unary, begins, taken};
use crate::tables::table_const;
use fault::{Fault, Rule};
use phrases::Parser;
use phrases::leaves::leaf;
use phrases::lists::list;
use phrases::sorts::{Leaf, Wanted};
use tree::What;
use words::Sign;

// expr → bool-term { (and | or) bool-term }
#[cycle(expression)]
pub fn expr(parser: &mut Parser<'_, '_>, depth: u8) -> Result<u16, Fault>
    ensures { Follows Expressed (expressions_at any_token depth) parser.old parser.new result }
{
    level(parser, depth, Level::Logic)
}

// bool-term → comp-term [ (== | != | > | >= | < | <=) comp-term ]
#[cycle(expression)]
fn bool_term(parser: &mut Parser<'_, '_>, depth: u8) -> Result<u16, Fault>
    ensures { Follows Expressed (level_reader depth rank.Comparison) parser.old parser.new result }
{
    level(parser, depth, Level::Comparison)
}

// comp-term → low-term { (+ | -) low-term }
#[cycle(expression)]
fn comp_term(parser: &mut Parser<'_, '_>, depth: u8) -> Result<u16, Fault>
    ensures { Follows Expressed (level_reader depth rank.Sum) parser.old parser.new result }
{
    level(parser, depth, Level::Sum)
}

// low-term → factor { (* | / | join-op) factor }
#[cycle(expression)]
fn low_term(parser: &mut Parser<'_, '_>, depth: u8) -> Result<u16, Fault>
    ensures { Follows Expressed (level_reader depth rank.Product) parser.old parser.new result }
{
    level(parser, depth, Level::Product)
}

// An operand, and the operators of the level behind it with theirs.
#[cycle(expression)]
fn level(parser: &mut Parser<'_, '_>, depth: u8, level: Level) -> Result<u16, Fault>
    ensures { Follows Expressed (level_reader depth level) parser.old parser.new result }
{
    let first = operand(parser, depth, level)?;
    more(parser, depth, level, first)
}

// What stands on either side of an operator of the level.
#[cycle(expression)]
fn operand(parser: &mut Parser<'_, '_>, depth: u8, level: Level) -> Result<u16, Fault>
    ensures { Follows Expressed (operand_reader depth level) parser.old parser.new result }
{
    match level {
        Level::Logic => bool_term(parser, depth),
        Level::Comparison | Level::Compared => comp_term(parser, depth),
        Level::Sum => low_term(parser, depth),
        Level::Product => factor(parser, depth),
    }
}

// The operators of the level that follow, joined to the left.
#[cycle(expression)]
fn more(parser: &mut Parser<'_, '_>, depth: u8, level: Level, left: u16) -> Result<u16, Fault>
    ensures { GoesOn Expressed (rest (operand_reader depth level) (brackets_at any_token depth) (level_of level)) left parser.old parser.new result }
{
    match taken(level, parser.ahead.token) {
        Turn::Stop => Ok(left),
        Turn::Take(operator) => operated(parser, depth, level, left, operator),
        Turn::Join => joined(parser, depth, level, left),
    }
}

// The operator ahead and its right operand, then those that follow.
#[cycle(expression)]
fn operated(
    parser: &mut Parser<'_, '_>,
    depth: u8,
    level: Level,
    left: u16,
    operator: Operator,
) -> Result<u16, Fault>
    requires takes { turn.Take operator ≡ turn_in level (spoken parser.old.ahead.token) }
    ensures { GoesOn Expressed (rest (operand_reader depth level) (brackets_at any_token depth) (level_of level)) left parser.old parser.new result }
{
    let at = parser.ahead;
    parser.advance()?;
    let right = operand(parser, depth, level)?;
    let root = parser.put(operator.node(left, right), at);
    more(parser, depth, level.after(), root)
}

// join-op → join [ expr ], and its right operand, then those that follow.
#[cycle(expression)]
fn joined(parser: &mut Parser<'_, '_>, depth: u8, level: Level, left: u16) -> Result<u16, Fault>
    requires takes { turn.Join ≡ turn_in level (spoken parser.old.ahead.token) }
    ensures { GoesOn Expressed (rest (operand_reader depth level) (brackets_at any_token depth) (level_of level)) left parser.old parser.new result }
{
    let at = parser.ahead;
    parser.advance()?;
    let condition = bracket(parser, depth)?;
    let right = operand(parser, depth, level)?;
    let root = parser.put(What::Joined(left, condition, right), at);
    more(parser, depth, level.after(), root)
}

// factor → unary-op factor | ( expr ) | id | constant
#[cycle(expression)]
fn factor(parser: &mut Parser<'_, '_>, depth: u8) -> Result<u16, Fault>
    ensures { Follows Expressed (factors_at any_token depth) parser.old parser.new result }
{
    match begins(parser.ahead.token) {
        Start::Name => leaf(parser, Leaf::Name),
        Start::Constant => leaf(parser, Leaf::Constant),
        Start::Negation(sign) => negation(parser, depth, sign),
        Start::Unary(operator) => unary(parser, depth, operator),
        Start::Parenthesis => enclosed(parser, depth, Sign::RightParenthesis),
        Start::Brace => table_const(parser, depth),
        Start::Nothing => Err(parser.refuse(Rule::CannotFollow)),
    }
}

// unary-op → - | not
#[cycle(expression)]
fn negation(parser: &mut Parser<'_, '_>, depth: u8, sign: Negation) -> Result<u16, Fault>
    requires token { AtToken parser.old }
    ensures { Follows Expressed (opened depth (negation_behind (negation_of sign))) parser.old parser.new result }
{
    let at = parser.ahead;
    let below = parser.open(depth)?;
    let operand = factor(parser, below)?;
    Ok(parser.put(sign.node(operand), at))
}

// The operators with brackets: project, rename, select, exists, all, update, extend.
#[cycle(expression)]
fn unary(parser: &mut Parser<'_, '_>, depth: u8, operator: Unary) -> Result<u16, Fault>
    requires token { AtToken parser.old }
    ensures { Follows Expressed (opened depth (unary_behind (unary_of operator))) parser.old parser.new result }
{
    let at = parser.ahead;
    let below = parser.open(depth)?;
    parser.expect(Wanted::Sign(Sign::LeftBracket))?;
    let first = parser.count;
    let argument = inside(parser, below, operator)?;
    parser.expect(Wanted::Sign(Sign::RightBracket))?;
    let operand = factor(parser, below)?;
    Ok(parser.put(operator.node(first, argument, operand), at))
}

// What stands in the brackets of an operator.
#[cycle(expression)]
fn inside(parser: &mut Parser<'_, '_>, depth: u8, operator: Unary) -> Result<u16, Fault>
    ensures { Follows (Inside (argument_of (unary_of operator))) (inside_reader depth (argument_of (unary_of operator))) parser.old parser.new result }
{
    match operator.bracketed() {
        Bracketed::Names => list(parser, |parser| leaf(parser, Leaf::Name)),
        Bracketed::Condition => expr(parser, depth),
        Bracketed::Update => assigned(parser, depth),
        Bracketed::Extend => extended(parser, depth),
    }
}

// atomic-type id = expr
#[cycle(expression)]
fn extended(parser: &mut Parser<'_, '_>, depth: u8) -> Result<u16, Fault>
    ensures { Follows (Inside extend_argument) (inside_reader depth extend_argument) parser.old parser.new result }
{
    leaf(parser, Leaf::Type)?;
    assigned(parser, depth)
}

// id = expr
#[cycle(expression)]
pub fn assigned(parser: &mut Parser<'_, '_>, depth: u8) -> Result<u16, Fault>
    ensures { Follows Assigned (assigned_reader depth) parser.old parser.new result }
{
    leaf(parser, Leaf::Name)?;
    parser.expect(Wanted::Sign(Sign::Assign))?;
    expr(parser, depth)
}

// The bracket of a join or of a specifier: [ expr ]
#[cycle(expression)]
pub fn bracket(parser: &mut Parser<'_, '_>, depth: u8) -> Result<u16, Fault>
    ensures { Follows Expressed (brackets_at any_token depth) parser.old parser.new result }
{
    if !parser.sees(Wanted::Sign(Sign::LeftBracket)) {
        return Err(parser.refuse(Rule::CannotFollow));
    }
    enclosed(parser, depth, Sign::RightBracket)
}

// An expression one deeper, up to the sign that closes it.
#[cycle(expression)]
fn enclosed(parser: &mut Parser<'_, '_>, depth: u8, closing: Sign) -> Result<u16, Fault>
    requires token { AtToken parser.old }
    ensures { Follows Expressed (opened depth (enclosed_behind (closing_token closing))) parser.old parser.new result }
{
    let below = parser.open(depth)?;
    let inner = expr(parser, below)?;
    parser.expect(Wanted::Sign(closing))?;
    Ok(inner)
}
