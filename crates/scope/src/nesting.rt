// How the lists of a chain nest: one more begins while there is room.
ghost use Rattle.std.specs.Prelude.{◌≡◌, []};
ghost use Rattle.std.specs.Option.{option_map};
ghost use Rattle.fault.specs.Limits.{depth};
ghost use Rattle.schema.specs.Building.{with_one};
ghost use Rattle.scope.specs.Nesting.{begun};

use crate::starts::Starts;
use fault::limits::DEPTH;

impl Starts {
    // No list begins yet.
    pub fn none() -> Starts
        ensures { begun result ≡ [] }
    {
        Starts {
            at: [0; DEPTH],
            len: 0,
        }
    }

    // The starts in order.
    pub fn all(&self) -> &[usize]
        ensures { result.now ≡ begun self.now }
    {
        &self.at[..self.len]
    }

    // One list more, from here on; none if there are too many.
    pub fn with(self, start: usize) -> Option<Starts>
        ensures { option_map begun result ≡ with_one depth (begun self) start }
    {
        if self.len == DEPTH {
            return None;
        }
        let mut more = self;
        more.at[self.len] = start;
        more.len += 1;
        Some(more)
    }
}
