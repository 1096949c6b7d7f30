// The parser's state: the scanner, the one token that was pulled ahead, the lent arena and how many of its entries are taken.
ghost use Rattle.std.specs.Prelude.{◌+◌, ◌≤◌, length};
ghost use Rattle.fault.specs.Limits.{nodes as nodes_limit};
ghost use Rattle.words.specs.Views.{spoken, standing};
ghost use Rattle.phrases.specs.Places.{worth_of};

use tree::Node;
use words::{Lexeme, Scanner};

// What is left of the text pays for each node that it brings, so that the arena never runs full.
// Who lent the arena takes it back by moving `nodes` out, and so knows what its entries hold.
#[derive(Drop)]
pub struct Parser<'t, 'n> {
    pub scanner: Scanner<'t>,
    pub ahead: Lexeme<'t>,
    pub nodes: &'n mut [Node],
    pub count: u16,
    pub ghost fits: { nodes_limit ≤ length nodes.now },
    pub ghost room: { count + worth_of (spoken ahead.token) (standing scanner) ≤ nodes_limit },
}
