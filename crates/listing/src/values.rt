// The readers of values. What they refuse is a wrong cell.
ghost use Rattle.std.specs.Prelude.{◌≡◌, ◌≤◌, length, take, pos, neg_ℤ, IfOk};
ghost use Rattle.fault.specs.Limits.{string_bytes};
ghost use Rattle.words.specs.Letters.{plain, run};
ghost use Rattle.texts.specs.Language.{most, least};
ghost use Rattle.texts.specs.Reading.{further, read_count, apart, read_integer, read_quoted, read_string, read_boolean, read_value};
ghost use Rattle.listing.specs.Seen.{ReadsAs, Reads, part, value_in};

use crate::cell::Cell;
use crate::reader::Reader;
use domain::Domain;
use fault::limits::{INTEGER_MAX, STRING_BYTES};
use fault::{Fault, Rule};
use words::Span;

// The number below zero of that size.
fn negated(size: u64) -> i64
    requires some { 1 ≤ size }
    requires small { size ≤ least }
    ensures { result ≡ neg_ℤ (pos size) }
{
    0i64.saturating_sub_unsigned(size)
}

// How many bytes at the front may stand in a string, as far as a string goes. The same bytes as in a script, by one definition.
fn plain_length(bytes: &[u8]) -> usize
    ensures within { result ≤ length bytes.now }
    ensures few { result ≤ string_bytes }
    ensures value { result ≡ run plain (take string_bytes bytes.now) }
{
    let few = &bytes[..STRING_BYTES.min(bytes.len())];
    few.iter()
        .position(|b| *b < b' ' || *b == b'"' || *b == 127)
        .unwrap_or(few.len())
}

impl<'a> Reader<'a> {
    // Digits behind the number `first`, as long as there are any and the number stays within the limit.
    fn further_digits(&mut self, limit: u64, first: u64) -> Result<u64, Fault>
        requires begun { first ≤ limit }
        requires large { 9 ≤ limit }
        ensures bounds { IfOk result (λ n. (first ≤ n) × (n ≤ limit)) }
        ensures reads { Reads (further limit first) self.old self.new result }
    {
        // by hand: the reader's own position goes on, and a refusal leaves it at the byte that is refused
        let mut number = first;
        while let Some(b) = self.peek() {
            if !b.is_ascii_digit() {
                return Ok(number);
            }
            let digit = u64::from(b - b'0');
            if number > (limit - digit) / 10 {
                return Err(self.refuse(Rule::WrongCell));
            }
            number = number * 10 + digit;
            self.at += 1;
        }
        Ok(number)
    }

    // A number from 1 to the limit, without needless zeros.
    fn count(&mut self, limit: u64) -> Result<u64, Fault>
        requires { 9 ≤ limit }
        ensures bounds { IfOk result (λ n. (1 ≤ n) × (n ≤ limit)) }
        ensures reads { Reads (read_count limit) self.old self.new result }
    {
        match self.peek() {
            Some(b @ b'1'..=b'9') => {
                self.at += 1;
                self.further_digits(limit, u64::from(b - b'0'))
            }
            _ => Err(self.refuse(Rule::WrongCell)),
        }
    }

    // No digit may come next.
    fn apart(&mut self, value: i64) -> Result<i64, Fault>
        ensures { Reads (apart value) self.old self.new result }
    {
        match self.peek() {
            Some(b'0'..=b'9') => Err(self.refuse(Rule::WrongCell)),
            _ => Ok(value),
        }
    }

    // An integer without needless zeros, plus or `-0`.
    fn integer(&mut self) -> Result<i64, Fault>
        ensures { Reads read_integer self.old self.new result }
    {
        match self.peek() {
            Some(b'-') => {
                self.at += 1;
                let size = self.count(INTEGER_MAX + 1)?;
                Ok(negated(size))
            }
            Some(b'0') => {
                self.at += 1;
                self.apart(0)
            }
            _ => {
                let size = self.count(INTEGER_MAX)?;
                Ok(size as i64)
            }
        }
    }

    // What comes before the closing quote, at most `STRING_BYTES` bytes.
    fn quoted(&mut self) -> Result<Span, Fault>
        ensures { ReadsAs part (read_quoted string_bytes) self.old self.new result }
    {
        let start = self.at;
        let inside = plain_length(&self.text[start..]);
        self.at += inside;
        self.byte(Rule::WrongCell, b'"')?;
        Ok(Span {
            start: start as u16,
            len: inside as u8,
        })
    }

    // A string in quotes.
    fn string(&mut self) -> Result<Span, Fault>
        ensures { ReadsAs part read_string self.old self.new result }
    {
        self.byte(Rule::WrongCell, b'"')?;
        self.quoted()
    }

    // `true` or `false`.
    fn boolean(&mut self) -> Result<bool, Fault>
        ensures { Reads read_boolean self.old self.new result }
    {
        if self.next_is(b't') {
            self.word(Rule::WrongCell, b"true")?;
            return Ok(true);
        }
        self.word(Rule::WrongCell, b"false")?;
        Ok(false)
    }

    // A value of the domain.
    pub(crate) fn value(&mut self, domain: Domain) -> Result<Cell, Fault>
        ensures { ReadsAs value_in (read_value domain) self.old self.new result }
    {
        match domain {
            Domain::Integer => Ok(Cell::Integer(self.integer()?)),
            Domain::String => Ok(Cell::String(self.string()?)),
            Domain::Boolean => Ok(Cell::Boolean(self.boolean()?)),
        }
    }
}
