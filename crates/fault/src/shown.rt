// How a fault is told in one line: `fault 11 scan line 3 byte 41`.
ghost use Rattle.std.specs.Prelude.{◌≡◌, Some};
ghost use Rattle.fault.specs.Shown.{layer_name, place_line, fault_line};

use crate::places::Place;
use crate::rules::{Fault, Layer};
use std::error::Error;
use std::fmt;

impl Layer {
    pub fn name(self) -> &'static str
        ensures { result.now ≡ layer_name self }
    {
        match self {
            Layer::Host => "host",
            Layer::Scan => "scan",
            Layer::Grammar => "grammar",
            Layer::Schema => "schema",
            Layer::Size => "size",
            Layer::Machine => "machine",
            Layer::Store => "store",
            Layer::Heading => "heading",
            Layer::Row => "row",
            Layer::Cell => "cell",
            Layer::Supply => "supply",
        }
    }
}

impl fmt::Display for Layer {
    ghost output = { λ x. Some (layer_name x) };

    fn fmt<W: fmt::Write>(&self, f: &mut fmt::Formatter<W>) -> fmt::Result {
        f.write_str(self.name())
    }
}

impl fmt::Display for Place {
    ghost output = { λ x. Some (place_line x) };

    fn fmt<W: fmt::Write>(&self, f: &mut fmt::Formatter<W>) -> fmt::Result {
        let line = self.line;
        let byte = self.byte;
        write!(f, "line {line} byte {byte}")
    }
}

impl fmt::Display for Fault {
    ghost output = { λ x. Some (fault_line x) };

    fn fmt<W: fmt::Write>(&self, f: &mut fmt::Formatter<W>) -> fmt::Result {
        let number = self.rule.number();
        let layer = self.rule.layer();
        let place = self.place;
        write!(f, "fault {number} {layer} {place}")
    }
}

impl Error for Fault {}
