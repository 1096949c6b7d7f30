// Where a reader stands: the next byte, and the refusal of it with its line and byte.
// The line is counted at a refusal only, so that reading keeps no more than a position.
ghost use Rattle.std.specs.Prelude.{◌≡◌, ◌+◌, ◌<◌, ◌≤◌, [], ◌∷◌, length, take, drop, MatchOption};
ghost use Rattle.fault.specs.Limits.{text_bytes};
ghost use Rattle.texts.specs.Readers.{first, word};
ghost use Rattle.texts.specs.Reading.{next};
ghost use Rattle.listing.specs.Seen.{rest, line_of, place_at, fault_at, Reads};

use crate::reader::Reader;
use fault::limits::TEXT_BYTES;
use fault::{Fault, Place, Rule};

// One more than the line feeds before a place.
fn line_of(text: &[u8], at: usize) -> u32
    requires within { at ≤ length text.now }
    requires short { length text.now ≤ text_bytes }
    ensures { result ≡ line_of text.now at }
{
    let feeds = text[..at].iter().filter(|b| **b == b'\n').count();
    feeds as u32 + 1
}

impl<'a> Reader<'a> {
    // A reader at the start of a text. Of a text that is too long it sees the first `TEXT_BYTES` bytes.
    pub fn new(text: &'a [u8]) -> Reader<'a>
        ensures text { result.text.now ≡ take text_bytes text.now }
        ensures start { result.at ≡ 0 }
    {
        Reader {
            text: &text[..TEXT_BYTES.min(text.len())],
            at: 0,
        }
    }

    // The byte that comes next, if there is one.
    pub(crate) fn peek(&self) -> Option<u8>
        ensures ahead { MatchOption result (rest self.now ≡ []) (λ b. (self.now.at < length self.now.text.now) × (rest self.now ≡ b ∷ drop (self.now.at + 1) self.now.text.now)) }
    {
        self.text.get(self.at).copied()
    }

    // Whether this byte comes next.
    pub(crate) fn next_is(&self, b: u8) -> bool
        ensures { result ≡ next b (first (rest self.now)) }
    {
        self.peek() == Some(b)
    }

    // The place of what comes next.
    fn place(&self) -> Place
        ensures { result ≡ place_at self.now.text.now self.now.at }
    {
        Place {
            line: line_of(self.text, self.at),
            byte: self.at as u32,
        }
    }

    // The refusal of what comes next.
    pub(crate) fn refuse(&self, rule: Rule) -> Fault
        ensures { result ≡ fault_at rule self.now.text.now self.now.at }
    {
        self.place().fault(rule)
    }

    // The byte that has to come next.
    pub(crate) fn byte(&mut self, rule: Rule, wanted: u8) -> Result<(), Fault>
        ensures { Reads (word rule (wanted ∷ []) tt) self.old self.new result }
    {
        match self.peek() {
            Some(b) if b == wanted => {
                self.at += 1;
                Ok(())
            }
            _ => Err(self.refuse(rule)),
        }
    }

    // Bytes that have to come next.
    pub(crate) fn word(&mut self, rule: Rule, wanted: &[u8]) -> Result<(), Fault>
        ensures { Reads (word rule wanted.now tt) self.old self.new result }
    {
        for b in wanted {
            self.byte(rule, *b)?;
        }
        Ok(())
    }
}
