// One token on, one token expected, one node put.
ghost use Rattle.std.specs.Prelude.{◌≡◌, ◌+◌, ◌<◌, ◌≤◌, List, OnOk, ◌==◌, slice_set};
ghost use Rattle.fault.specs.Limits.{nodes as nodes_limit};
ghost use Rattle.tree.specs.declared.nodes.Node.{Node};
ghost use Rattle.words.specs.Tokens.{Bytes};
ghost use Rattle.grammar.specs.Parts.{code_in};
ghost use Rattle.phrases.specs.Sorts.{wanted_of};
ghost use Rattle.words.specs.Views.{spoken};
ghost use Rattle.phrases.specs.Places.{pays_ahead};
ghost use Rattle.phrases.specs.States.{SameArena, AtToken, ahead_at, worth, Grounded, code_ahead, fault_at, Counted, new_node, Stepped, Expected, Opened};

use crate::parsers::Parser;
use crate::sorts::Wanted;
use fault::{Fault, Rule};
use tree::{Node, What};
use words::{Lexeme, Token};

// Whether the token is this word or sign.
fn is_wanted(token: Token, wanted: Wanted) -> bool
    ensures { result ≡ (code_in (wanted_of wanted) == code_ahead (spoken token.entry)) }
{
    match token {
        Token::Word(word) => wanted == Wanted::Word(word),
        Token::Sign(sign) => wanted == Wanted::Sign(sign),
        _ => false,
    }
}

impl Parser<'_, '_> {
    // The fault of a rule that the token ahead breaks.
    pub fn refuse(&self, rule: Rule) -> Fault
        ensures { result ≡ fault_at rule (ahead_at self.now) }
    {
        self.ahead.place.fault(rule)
    }

    // Whether the token ahead is this word or sign.
    pub fn sees(&self, wanted: Wanted) -> bool
        ensures { result ≡ (code_in (wanted_of wanted) == code_ahead (spoken self.now.ahead.token)) }
    {
        is_wanted(self.ahead.token, wanted)
    }

    // Pulls the next token; what is no token is the text's fault.
    pub fn advance(&mut self) -> Result<(), Fault>
        ensures lent { SameArena self.old self.new }
        ensures entries { self.new.nodes.now ≡ self.old.nodes.now }
        ensures count { self.new.count ≡ self.old.count }
        ensures paid { OnOk result (worth self.new + pays_ahead (spoken self.old.ahead.token) ≤ worth self.old) }
        ensures step { (text : Bytes) (arena : List Node) → Grounded text arena self.old → Stepped text arena self.old self.new result }
    {
        self.ahead = self.scanner.next()?;
        Ok(())
    }

    // Passes the token ahead, which has to be this word or sign.
    pub fn expect(&mut self, wanted: Wanted) -> Result<(), Fault>
        ensures lent { SameArena self.old self.new }
        ensures entries { self.new.nodes.now ≡ self.old.nodes.now }
        ensures count { self.new.count ≡ self.old.count }
        ensures paid { OnOk result (worth self.new < worth self.old) }
        ensures step { (text : Bytes) (arena : List Node) → Grounded text arena self.old → Expected text arena (wanted_of wanted) self.old self.new result }
    {
        if !self.sees(wanted) {
            return Err(self.refuse(Rule::CannotFollow));
        }
        self.advance()
    }

    // Passes the token ahead, which opens a depth where so many are left; the answer is how many are left behind it.
    pub fn open(&mut self, depth: u8) -> Result<u8, Fault>
        requires token { AtToken self.old }
        ensures lent { SameArena self.old self.new }
        ensures entries { self.new.nodes.now ≡ self.old.nodes.now }
        ensures count { self.new.count ≡ self.old.count }
        ensures paid { OnOk result (worth self.new + pays_ahead (spoken self.old.ahead.token) ≤ worth self.old) }
        ensures step { (text : Bytes) (arena : List Node) → Grounded text arena self.old → Opened text arena depth self.old self.new result }
    {
        if depth == 0 {
            return Err(self.refuse(Rule::TooDeep));
        }
        self.advance()?;
        Ok(depth - 1)
    }

    // Takes the next entry of the arena for a node at this token.
    pub fn put(&mut self, what: What, at: Lexeme) -> u16
        requires room { self.old.count + 1 + worth self.old ≤ nodes_limit }
        ensures lent { SameArena self.old self.new }
        ensures root { result ≡ self.old.count }
        ensures state { Counted self.old self.new }
        ensures count { self.new.count ≡ self.old.count + 1 }
        ensures worth { worth self.new ≡ worth self.old }
        ensures nodes { self.new.nodes.now ≡ slice_set self.old.nodes.now self.old.count (new_node what at.entry.place) }
    {
        let root = self.count;
        self.nodes[root as usize] = Node {
            what,
            place: at.place,
            next: None,
        };
        self.count = root + 1;
        root
    }
}
