// The numbers of the strings that have one before a text is read.
ghost use Rattle.std.specs.Prelude.{◌≡◌, ◌<◌, ◌≤◌, length, take, IfSome};
ghost use Rattle.fault.specs.Limits as limits;
ghost use Rattle.pool.specs.Strings.{position, numbered};

use crate::find::find_in;
use crate::known::Known;
use fault::limits::{LITERALS, READ_STRINGS};
use words::Span;

// The first spans, as many as the limit.
fn first_of(spans: &[Span], limit: usize) -> &[Span]
    ensures value { result.now ≡ take limit spans.now }
    ensures short { length result.now ≤ limit }
{
    &spans[..limit.min(spans.len())]
}

impl<'a> Known<'a> {
    // The strings of a script and the pool's entries in use. No more count than a script and a pool can have.
    pub fn new(
        script: &'a [u8],
        literals: &'a [Span],
        pool: &'a [u8],
        entries: &'a [Span],
    ) -> Known<'a>
        ensures script { result.script.now ≡ script.now }
        ensures literals { result.literals.now ≡ take limits.literals literals.now }
        ensures pool { result.pool.now ≡ pool.now }
        ensures entries { result.entries.now ≡ take limits.read_strings entries.now }
    {
        Known {
            script,
            literals: first_of(literals, LITERALS),
            pool,
            entries: first_of(entries, READ_STRINGS),
        }
    }

    // The number of a string: 0 for the empty one, then the literals, then the entries.
    pub(crate) fn number(self, wanted: &[u8]) -> Option<usize>
        ensures value { result ≡ position (numbered self.entry) wanted.now }
        ensures small { IfSome result (λ n. n < length (numbered self.entry)) }
    {
        if wanted.is_empty() {
            return Some(0);
        }
        if let Some(i) = find_in(self.script, self.literals, wanted) {
            return Some(1 + i);
        }
        let i = find_in(self.pool, self.entries, wanted)?;
        Some(1 + self.literals.len() + i)
    }
}
