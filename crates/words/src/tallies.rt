// A whole text, scanned: how many tokens of which kind it has, or its first fault.
ghost use Rattle.std.specs.Prelude.{◌≡◌, ◌<◌};
ghost use Rattle.fault.specs.Limits.{script_bytes};
ghost use Rattle.words.specs.Lexing.{place, tokens};
ghost use Rattle.words.specs.Reading.{Scanned, OneListOfTokens};
ghost use Rattle.words.specs.Sizes.{text_bytes};
ghost use Rattle.words.specs.Tallies.{nothing, total, counted_as, tallied};
ghost use Rattle.words.specs.Views.{spoken};

use crate::scanners::Scanner;
use crate::texts::Text;
use crate::tokens::Token;
use fault::Fault;

#[derive(Clone, Copy, Debug, Default, PartialEq, Eq)]
pub struct Tally {
    pub words: u32,
    pub names: u32,
    pub integers: u32,
    pub strings: u32,
    pub signs: u32,
    // The line of the last token.
    pub lines: u32,
}

impl Tally {
    // One token more.
    fn count(self, token: Token, line: u32) -> Tally
        requires { total self < script_bytes }
        ensures { result ≡ counted_as (spoken token.entry) line self }
    {
        let mut tally = self;
        match token {
            Token::End => return self,
            Token::Word(_) | Token::Domain(_) | Token::Logic(_) | Token::Truth(_) => tally.words +=
                1,
            Token::Sign(_) | Token::Comparison(_) | Token::Sum(_) | Token::Product(_) =>
                tally.signs += 1,
            Token::Name(_) => tally.names += 1,
            Token::Integer(_) => tally.integers += 1,
            Token::Text(_) => tally.strings += 1,
        }
        tally.lines = line;
        tally
    }
}

// Scans a text to its end: its tokens are the one list that the rules give, counted by kind, or the first fault among them.
pub fn scan(text: &Text) -> Result<Tally, Fault>
    ensures scanned { Scanned (place 1 0) (text_bytes text.now) (tokens (text_bytes text.now)) }
    ensures one { OneListOfTokens }
    ensures tally { result ≡ tallied nothing (tokens (text_bytes text.now)) }
{
    let mut scanner = Scanner::new(text);
    let mut tally = Tally::default();
    loop {
        let lexeme = scanner.next()?;
        if let Token::End = lexeme.token {
            return Ok(tally);
        }
        tally = tally.count(lexeme.token, lexeme.place.line);
    }
}
