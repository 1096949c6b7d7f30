// The 26 words that are no names, as specs/Spelling.antt has them.
ghost use Rattle.std.specs.Prelude.{◌≡◌, map, Some};
ghost use Rattle.words.specs.Lexing.{keyword_terminal};
ghost use Rattle.words.specs.Spelling.{spelt_among, keyword_of};
ghost use Rattle.words.specs.Views.{spoken};

use crate::tokens::{Logic, Token, Word};
use domain::Domain;

#[derive(Clone, Copy)]
pub enum Keyword {
    Word(Word),
    Domain(Domain),
    Logic(Logic),
    Truth(bool),
}

impl<'a> From<Keyword> for Token<'a> {
    ghost from_gives = { λ k t. spoken t ≡ Some (keyword_terminal k) };

    fn from(keyword: Keyword) -> Token<'a> {
        match keyword {
            Keyword::Word(word) => Token::Word(word),
            Keyword::Domain(domain) => Token::Domain(domain),
            Keyword::Logic(logic) => Token::Logic(logic),
            Keyword::Truth(truth) => Token::Truth(truth),
        }
    }
}

// Each word with its spelling, the words of a length in a table of their own, so that a name is compared with those of its length alone. A `match` on the spellings would compare byte by byte, and its proof have a case for each byte of each word.
const WORDS_OF_TWO: [(&[u8], Keyword); 3] = [
    (b"if", Keyword::Word(Word::If)),
    (b"do", Keyword::Word(Word::Do)),
    (b"or", Keyword::Logic(Logic::Or)),
];

const WORDS_OF_THREE: [(&[u8], Keyword); 4] = [
    (b"end", Keyword::Word(Word::End)),
    (b"not", Keyword::Word(Word::Not)),
    (b"all", Keyword::Word(Word::All)),
    (b"and", Keyword::Logic(Logic::And)),
];

const WORDS_OF_FOUR: [(&[u8], Keyword); 5] = [
    (b"then", Keyword::Word(Word::Then)),
    (b"else", Keyword::Word(Word::Else)),
    (b"read", Keyword::Word(Word::Read)),
    (b"join", Keyword::Word(Word::Join)),
    (b"true", Keyword::Truth(true)),
];

const WORDS_OF_FIVE: [(&[u8], Keyword); 4] = [
    (b"table", Keyword::Word(Word::Table)),
    (b"while", Keyword::Word(Word::While)),
    (b"write", Keyword::Word(Word::Write)),
    (b"false", Keyword::Truth(false)),
];

const WORDS_OF_SIX: [(&[u8], Keyword); 6] = [
    (b"select", Keyword::Word(Word::Select)),
    (b"exists", Keyword::Word(Word::Exists)),
    (b"update", Keyword::Word(Word::Update)),
    (b"extend", Keyword::Word(Word::Extend)),
    (b"rename", Keyword::Word(Word::Rename)),
    (b"string", Keyword::Domain(Domain::String)),
];

const WORDS_OF_SEVEN: [(&[u8], Keyword); 4] = [
    (b"program", Keyword::Word(Word::Program)),
    (b"project", Keyword::Word(Word::Project)),
    (b"integer", Keyword::Domain(Domain::Integer)),
    (b"boolean", Keyword::Domain(Domain::Boolean)),
];

// The first of these words that is spelt so.
fn spelt_among(words: &[(&[u8], Keyword)], bytes: &[u8]) -> Option<Keyword>
    ensures { result ≡ spelt_among (map (λ w. (w.0.now, w.1)) words.now) bytes.now }
{
    for (spelling, keyword) in words {
        if bytes == *spelling {
            return Some(*keyword);
        }
    }
    None
}

// The keyword that is spelt so; any other name is a name.
pub fn keyword_of(bytes: &[u8]) -> Option<Keyword>
    ensures { result ≡ keyword_of bytes.now }
{
    match bytes.len() {
        2 => spelt_among(&WORDS_OF_TWO, bytes),
        3 => spelt_among(&WORDS_OF_THREE, bytes),
        4 => spelt_among(&WORDS_OF_FOUR, bytes),
        5 => spelt_among(&WORDS_OF_FIVE, bytes),
        6 => spelt_among(&WORDS_OF_SIX, bytes),
        7 => spelt_among(&WORDS_OF_SEVEN, bytes),
        _ => None,
    }
}
