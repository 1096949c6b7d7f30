// Values, as rows and atoms show them, and the names of sources.
ghost use Rattle.std.specs.Prelude.{◌≡◌, ◌≤◌, length};
ghost use Rattle.texts.specs.Lines.{boolean_bytes, value_bytes, source_bytes};
ghost use Rattle.lines.specs.Buffers.{Adds, HasRoom, value_room};
ghost use Rattle.lines.specs.Shown.{value_of, name_of};

use crate::entries::Entries;
use crate::shown::{Shown, Sources, Text};
use crate::writing::Line;

fn boolean_bytes(value: bool) -> &'static [u8]
    ensures { result.now ≡ boolean_bytes value }
{
    if value { b"true" } else { b"false" }
}

impl Entries<Shown> for Sources<'_> {
    ghost text = { λ sources value. value_bytes (value_of sources value) };

    ghost room = { value_room };

    fn put(&self, line: &mut Line<'_>, entry: &Shown) {
        match entry {
            Shown::Integer(number) => line.put_integer(*number),
            Shown::String(text) => line.put_string(text.of(*self)),
            Shown::Boolean(truth) => line.put_all(boolean_bytes(*truth)),
        }
    }
}

impl<'a> Line<'a> {
    // Where a text is to come from: a name, or `input`.
    pub(crate) fn put_source(&mut self, source: Option<Text>, sources: Sources<'_>)
        requires { HasRoom value_room self.old }
        ensures bytes { Adds (source_bytes (name_of sources.entry source)) self.old self.new }
        ensures short { length (source_bytes (name_of sources.entry source)) ≤ value_room }
    {
        match source {
            Some(name) => self.put_string(name.of(sources)),
            None => self.put_all(b"input"),
        }
    }
}
