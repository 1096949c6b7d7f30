// How schemas are made: empty, and with one attribute more at the end, while there is room.
ghost use Rattle.std.specs.Prelude.{◌≡◌, [], length};
ghost use Rattle.std.specs.Option.{option_map};
ghost use Rattle.fault.specs.Limits.{columns};
ghost use Rattle.schema.specs.Columns.{held};
ghost use Rattle.schema.specs.Building.{with_one, with_all, nth};

use crate::attributes::Attribute;
use crate::schemas::Schema;
use fault::limits::COLUMNS;

impl Schema {
    // No attribute yet.
    pub fn empty() -> Schema
        ensures { held result ≡ [] }
    {
        Schema {
            attributes: [Attribute::default(); COLUMNS],
            len: 0,
        }
    }

    // The attributes in order.
    pub fn attributes(&self) -> &[Attribute]
        ensures { result.now ≡ held self.now }
    {
        &self.attributes[..self.len]
    }

    // How many attributes there are.
    pub fn width(&self) -> usize
        ensures { result ≡ length (held self.now) }
    {
        self.len
    }

    // One attribute more at the end; none if the schema is full.
    pub fn with(self, attribute: Attribute) -> Option<Schema>
        ensures { option_map held result ≡ with_one columns (held self) attribute }
    {
        if self.len == COLUMNS {
            return None;
        }
        let mut longer = self;
        longer.attributes[self.len] = attribute;
        longer.len += 1;
        Some(longer)
    }

    // The attributes of the other behind those of this one; none if there are too many.
    pub fn append(self, other: &Schema) -> Option<Schema>
        ensures { option_map held result ≡ with_all (held self) (held other.now) }
    {
        let mut longer = self;
        for attribute in other.attributes() {
            longer = longer.with(*attribute)?;
        }
        Some(longer)
    }

    // The attribute at a position, if there is one.
    pub fn get(&self, position: usize) -> Option<Attribute>
        ensures { result ≡ nth (held self.now) position }
    {
        self.attributes().get(position).copied()
    }
}
