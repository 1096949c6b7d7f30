// Columns, as headings show them, and the formats of wishes.
ghost use Rattle.std.specs.Prelude.{◌≡◌, ◌+◌, ◌*◌, ◌≤◌, length};
ghost use Rattle.fault.specs.Limits.{columns};
ghost use Rattle.schema.specs.Columns.{column_of, schema_of};
ghost use Rattle.schema.specs.Kinds.{type_of};
ghost use Rattle.texts.specs.Lines.{column_bytes, heading_line, format_line};
ghost use Rattle.lines.specs.Buffers.{Adds, HasRoom, column_room, heading_room};

use crate::entries::Entries;
use crate::writing::Line;
use listing::names::{letter_byte, title};
use schema::{Attribute, Columns, Kind, Schema};

impl Entries<Attribute> for Columns<'_> {
    ghost text = { λ columns attribute. column_bytes (column_of columns.text.now attribute) };

    ghost room = { column_room };

    // A column's name, or `?`, a colon and the letter of its domain.
    fn put(&self, line: &mut Line<'_>, entry: &Attribute) {
        line.put_all(title(*entry, self.text).unwrap_or(b"?"));
        line.put(b':');
        line.put(letter_byte(entry.domain));
    }
}

impl<'a> Line<'a> {
    // The heading of a table.
    pub(crate) fn put_heading(&mut self, schema: &Schema, script: &[u8])
        requires { HasRoom heading_room self.old }
        ensures bytes { Adds (heading_line (schema_of script.now schema.now)) self.old self.new }
        ensures short { length (heading_line (schema_of script.now schema.now)) ≤ heading_room }
    {
        let columns = schema.columns(script);
        self.put_entries(&columns, columns.attributes);
    }

    // A format: the letter of an atom's domain, or a table's heading, with the line feed.
    pub(crate) fn put_format(&mut self, kind: &Kind, script: &[u8])
        requires { HasRoom heading_room self.old }
        ensures bytes { Adds (format_line (type_of script.now kind.now)) self.old self.new }
        ensures short { length (format_line (type_of script.now kind.now)) ≤ heading_room }
    {
        match kind {
            Kind::Atom(domain) => {
                self.put(letter_byte(*domain));
                self.put(b'\n');
            }
            Kind::Table(schema) => self.put_heading(schema, script),
        }
    }
}
