// Reads one token after the other. Each function is the definition of its name in specs/Lexing.antt.
ghost use Rattle.std.specs.Prelude.{◌≡◌, ◌+◌, ◌<◌, ◌≤◌, length, drop, if◌then◌else◌, Some, None};
ghost use Rattle.words.specs.Letters.{run, name_byte, digit, feed, blank};
ghost use Rattle.words.specs.Lexing.{start, further, skipped, word_or_name, name_at, integer_at, string_at, sign_at, token_at, next as next_token};
ghost use Rattle.words.specs.Sizes.{text_bytes};
ghost use Rattle.words.specs.Spelling.{keyword_of};
ghost use Rattle.words.specs.Views.{spot_of, standing, spoken, Scans, answer, Moved};

use crate::cursors::{Cursor, Found};
use crate::keywords::keyword_of;
use crate::letters::{Class, is_digit, is_letter, run_length};
use crate::numbers::value_within;
use crate::scanners::Scanner;
use crate::symbols::take_symbol;
use crate::texts::Text;
use crate::tokens::{Lexeme, Token};
use fault::limits::{INTEGER_MAX, NAME_BYTES, STRING_BYTES};
use fault::{Fault, Place, Rule};

// How many lines a separator ends; nothing for a byte that is no separator.
fn lines_ended(b: u8) -> Option<u32>
    ensures { result ≡ (if feed b then Some 1 else (if blank b then Some 0 else None)) }
{
    match b {
        b'\n' => Some(1),
        b' ' | b'\t' | b'\r' => Some(0),
        _ => None,
    }
}

fn word_or_name<'a>(bytes: &'a [u8]) -> Token<'a>
    ensures { spoken result ≡ Some (word_or_name (keyword_of bytes.now) bytes.now) }
{
    match keyword_of(bytes) {
        Some(keyword) => Token::from(keyword),
        None => Token::Name(bytes),
    }
}

impl<'a> Cursor<'a> {
    // Passes the separators, and counts the lines: in one pass, since rest, line and byte move together.
    fn skip(self) -> Cursor<'a>
        ensures shorter { length result.rest.now ≤ length self.entry.rest.now }
        ensures value { spot_of result ≡ skipped self.entry.rest.now self.entry.place.line self.entry.place.byte }
    {
        let mut rest = self.rest;
        let Place { mut line, mut byte } = self.place;
        while let [b, after @ ..] = rest {
            let Some(ended) = lines_ended(*b) else {
                break;
            };
            line += ended;
            byte += 1;
            rest = after;
        }
        Cursor {
            rest,
            place: Place { line, byte },
        }
    }

    // n bytes further, on the same line.
    fn step(self, n: usize) -> Cursor<'a>
        requires within { n ≤ length self.rest.now }
        ensures len { length result.rest.now + n ≡ length self.entry.rest.now }
        ensures value { spot_of result ≡ further n (spot_of self.entry) }
    {
        Cursor {
            rest: &self.rest[n..],
            place: Place {
                byte: self.place.byte + n as u32,
                ..self.place
            },
        }
    }

    // A word or a name, as far as name bytes go.
    fn name(self) -> Result<Found<'a>, Fault>
        requires first { 0 < run name_byte self.rest.now }
        ensures { Scans name_at self.entry result }
    {
        let length = run_length(Class::Naming, self.rest);
        if length > NAME_BYTES {
            return Err(self.place.fault(Rule::TokenTooLarge));
        }
        Ok(Found {
            token: word_or_name(&self.rest[..length]),
            after: self.step(length),
        })
    }

    // An integer of any number of digits whose value is at most the limit.
    fn integer(self, limit: u64) -> Result<Found<'a>, Fault>
        requires first { 0 < run digit self.rest.now }
        ensures { Scans (integer_at limit) self.entry result }
    {
        let length = run_length(Class::Counting, self.rest);
        let digits = &self.rest[..length];
        match value_within(digits, limit) {
            Some(_) => Ok(Found {
                token: Token::Integer(digits),
                after: self.step(length),
            }),
            None => Err(self.place.fault(Rule::TokenTooLarge)),
        }
    }

    // A string, whose first quote is passed already: a barred byte or the end comes before the size.
    fn string(self, inside: &'a [u8]) -> Result<Found<'a>, Fault>
        requires quote { 0 < length self.rest.now }
        requires inner { inside.now ≡ drop 1 self.rest.now }
        ensures { Scans string_at self.entry result }
    {
        let length = run_length(Class::Quoted, inside);
        if length >= inside.len() || inside[length] != b'"' {
            return Err(self.place.fault(Rule::NoToken));
        }
        if length > STRING_BYTES {
            return Err(self.place.fault(Rule::TokenTooLarge));
        }
        Ok(Found {
            token: Token::Text(&inside[..length]),
            after: self.step(length + 2),
        })
    }

    // A sign, or nothing that a token begins with.
    fn sign(self) -> Result<Found<'a>, Fault>
        ensures { Scans sign_at self.entry result }
    {
        match take_symbol(self.rest) {
            Some(signed) => {
                let length = self.rest.len() - signed.rest.len();
                Ok(Found {
                    token: Token::from(signed.symbol),
                    after: self.step(length),
                })
            }
            None => Err(self.place.fault(Rule::NoToken)),
        }
    }

    // The token at the cursor, by its first byte.
    fn token(self) -> Result<Found<'a>, Fault>
        ensures { Scans token_at self.entry result }
    {
        match self.rest {
            [] => Ok(Found {
                token: Token::End,
                after: self,
            }),
            [b'"', inside @ ..] => self.string(inside),
            [b, ..] if is_letter(*b) => self.name(),
            [b, ..] if is_digit(*b) => self.integer(INTEGER_MAX),
            _ => self.sign(),
        }
    }
}

impl<'a> Scanner<'a> {
    // At the first byte of a text.
    pub fn new(text: &'a Text) -> Scanner<'a>
        ensures { standing result ≡ start (text_bytes text.now) }
    {
        Scanner {
            at: Cursor {
                rest: text.bytes(),
                place: Place { line: 1, byte: 0 },
            },
        }
    }

    // The next token with its place, at the text's end `End`; a fault leaves the scanner where it was.
    pub fn next(&mut self) -> Result<Lexeme<'a>, Fault>
        ensures moved { Moved (standing self.old) (standing self.new) result }
        ensures value { answer (standing self.new) result ≡ next_token (standing self.old) }
    {
        let begin = self.at.skip();
        let found = begin.token()?;
        self.at = found.after;
        Ok(Lexeme {
            token: found.token,
            place: begin.place,
        })
    }
}
