// The readers of rows, of `end`, and of an atom's line.
ghost use Rattle.std.specs.Prelude.{◌≡◌, ◌≤◌, [], length};
ghost use Rattle.fault.specs.Limits.{columns};
ghost use Rattle.fault.specs.declared.rules.Rule.TheVariants.{WrongRow};
ghost use Rattle.schema.specs.Columns.{held};
ghost use Rattle.texts.specs.Language.{ending};
ghost use Rattle.texts.specs.Readers.{first, after, word, finish, entries};
ghost use Rattle.texts.specs.Reading.{next, read_value, read_row, read_atom};
ghost use Rattle.listing.specs.Seen.{rest, ReadsAs, Reads, value_in, values_in, value_behind, domains_of};

use crate::cell::Cell;
use crate::reader::Reader;
use domain::Domain;
use fault::limits::COLUMNS;
use fault::{Fault, Rule};
use schema::{Attribute, Schema};

impl<'a> Reader<'a> {
    // A value behind what separates it from the one before.
    fn further_value(&mut self, separator: &[u8], domain: Domain) -> Result<Cell, Fault>
        ensures { ReadsAs value_in (value_behind separator.now domain) self.old self.new result }
    {
        self.word(Rule::WrongRow, separator)?;
        self.value(domain)
    }

    // The values with commas between them, and the end of the line.
    fn values(&mut self, attributes: &[Attribute]) -> Result<[Cell; COLUMNS], Fault>
        requires { length attributes.now ≤ columns }
        ensures { ReadsAs (values_in (length attributes.now)) (entries WrongRow read_value [] (domains_of attributes.now)) self.old self.new result }
    {
        let mut cells = [Cell::Integer(0); COLUMNS];
        let mut separator: &[u8] = b"";
        for (i, attribute) in attributes.iter().enumerate() {
            cells[i] = self.further_value(separator, attribute.domain)?;
            separator = b",";
        }
        self.word(Rule::WrongRow, b")\n")?;
        Ok(cells)
    }

    // A row's line, for this schema: the first cells are its values.
    pub fn row(&mut self, schema: &Schema) -> Result<[Cell; COLUMNS], Fault>
        ensures { ReadsAs (values_in (length (held schema.now))) (read_row (domains_of (held schema.now))) self.old self.new result }
    {
        self.byte(Rule::WrongRow, b'(')?;
        self.values(schema.attributes())
    }

    // The text's end.
    fn finish(&mut self) -> Result<(), Fault>
        ensures { Reads (finish WrongRow tt) self.old self.new result }
    {
        match self.peek() {
            None => Ok(()),
            Some(_) => Err(self.refuse(Rule::WrongRow)),
        }
    }

    // Whether another row comes next.
    pub fn at_row(&self) -> bool
        ensures { result ≡ next 40 (first (rest self.now)) }
    {
        self.next_is(b'(')
    }

    // `end`, and the text's end.
    pub fn end(&mut self) -> Result<(), Fault>
        ensures { Reads (after (word WrongRow ending tt) (λ (_ : Unit {0}). finish WrongRow tt)) self.old self.new result }
    {
        self.word(Rule::WrongRow, b"end\n")?;
        self.finish()
    }

    // An atom's line, and the text's end.
    pub fn atom(&mut self, domain: Domain) -> Result<Cell, Fault>
        ensures { ReadsAs value_in (read_atom domain) self.old self.new result }
    {
        let cell = self.value(domain)?;
        self.byte(Rule::WrongRow, b'\n')?;
        self.finish()?;
        Ok(cell)
    }
}
