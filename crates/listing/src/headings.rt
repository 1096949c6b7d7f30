// The reader of headings. It compares with the schema that is asked for, and keeps nothing.
ghost use Rattle.std.specs.Prelude.{◌≡◌, []};
ghost use Rattle.words.specs.Spans.{bytes_of};
ghost use Rattle.fault.specs.declared.rules.Rule.TheVariants.{WrongHeading};
ghost use Rattle.schema.specs.Columns.{column_of, schema_of};
ghost use Rattle.schema.specs.Spelled.{columns_of};
ghost use Rattle.texts.specs.Readers.{word, entries};
ghost use Rattle.texts.specs.Reading.{read_name, read_column, read_heading};
ghost use Rattle.listing.specs.Seen.{Reads, passed, column_behind};

use crate::names::{letter_byte, title};
use crate::reader::Reader;
use fault::{Fault, Rule};
use schema::{Attribute, Columns, Schema};

impl<'a> Reader<'a> {
    // A column's name or `?`; a column without a name is `?`.
    fn name(&mut self, name: Option<&[u8]>) -> Result<(), Fault>
        ensures { Reads (read_name (bytes_of name.entry)) self.old self.new result }
    {
        match name {
            None => self.byte(Rule::WrongHeading, b'?'),
            Some(bytes) => {
                if self.next_is(b'?') {
                    return self.byte(Rule::WrongHeading, b'?');
                }
                self.word(Rule::WrongHeading, bytes)
            }
        }
    }

    // A column: its name, a colon and the letter of its domain.
    fn column(&mut self, attribute: Attribute, script: &[u8]) -> Result<(), Fault>
        ensures { Reads (read_column (column_of script.now attribute)) self.old self.new result }
    {
        self.name(title(attribute, script))?;
        self.byte(Rule::WrongHeading, b':')?;
        self.byte(Rule::WrongHeading, letter_byte(attribute.domain))
    }

    // A column behind what separates it from the one before.
    fn further_column(
        &mut self,
        separator: &[u8],
        attribute: Attribute,
        script: &[u8],
    ) -> Result<(), Fault>
        ensures { Reads (column_behind separator.now (column_of script.now attribute)) self.old self.new result }
    {
        self.word(Rule::WrongHeading, separator)?;
        self.column(attribute, script)
    }

    // The columns with commas between them, and the end of the line. A row's loop keeps the values that it reads, so it is another one.
    fn columns(&mut self, columns: Columns<'_>) -> Result<(), Fault>
        ensures { Reads (λ s. passed (entries WrongHeading read_column [] (columns_of columns.entry) s)) self.old self.new result }
    {
        let mut separator: &[u8] = b"";
        for attribute in columns.attributes {
            self.further_column(separator, *attribute, columns.text)?;
            separator = b",";
        }
        self.word(Rule::WrongHeading, b")\n")
    }

    // The heading's line, for this schema: its columns one by one, `?` for any of them.
    pub fn heading(&mut self, schema: &Schema, script: &[u8]) -> Result<(), Fault>
        ensures { Reads (λ s. passed (read_heading (schema_of script.now schema.now) s)) self.old self.new result }
    {
        self.byte(Rule::WrongHeading, b'(')?;
        self.columns(schema.columns(script))
    }
}
