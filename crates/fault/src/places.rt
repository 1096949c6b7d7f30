// A place of a text, and the fault of a rule that is broken there.
ghost use Rattle.std.specs.Prelude.{◌≡◌};

use crate::rules::{Fault, Rule};

// Lines count from 1 and bytes from 0.
#[derive(Clone, Copy, Debug, PartialEq, Eq)]
pub struct Place {
    pub line: u32,
    pub byte: u32,
}

impl Place {
    // The place of what lies outside any text.
    pub const NOWHERE: Place = Place { line: 0, byte: 0 };

    // The fault of a rule that is broken here.
    pub fn fault(self, rule: Rule) -> Fault
        ensures { result ≡ record { rule = rule; place = self } }
    {
        Fault { rule, place: self }
    }
}
