// Whole texts: is this a listing of such a table, and how many rows has it?
ghost use Rattle.std.specs.Prelude.{◌≡◌, ◌≤◌, length};
ghost use Rattle.fault.specs.Limits.{text_bytes};
ghost use Rattle.schema.specs.Columns.{schema_of, held};
ghost use Rattle.texts.specs.Reading.{read_body, read_table};
ghost use Rattle.listing.specs.Seen.{Reads, domains_of};
ghost use Rattle.listing.specs.Whole.{too_long, counted, table_reply, TellsTable};

use crate::reader::Reader;
use fault::limits::TEXT_BYTES;
use fault::{Fault, Place, Rule};
use schema::Schema;

// The refusal of a text that is too long.
pub fn too_long() -> Fault
    ensures { result ≡ too_long }
{
    Place::NOWHERE.fault(Rule::TextTooLong)
}

impl<'a> Reader<'a> {
    // Passes the rows, `end` and the text's end; how many rows there were.
    // Counted by hand: a row may be refused, and the reader then stands at that byte, so the rows are no iterator.
    fn count_rows(&mut self, schema: &Schema) -> Result<usize, Fault>
        ensures { Reads (λ s. counted (read_body (domains_of (held schema.now)) s)) self.old self.new result }
    {
        let mut count: usize = 0;
        while self.at_row() {
            let _ = self.row(schema)?;
            count += 1;
        }
        self.end()?;
        Ok(count)
    }

    // Passes a whole table; how many rows it has.
    fn pass_table(&mut self, schema: &Schema, script: &[u8]) -> Result<usize, Fault>
        ensures { Reads (λ s. counted (read_table (schema_of script.now schema.now) s)) self.old self.new result }
    {
        self.heading(schema, script)?;
        self.count_rows(schema)
    }
}

// Reads a text for a schema, whose names are parts of the script, and tells how many rows it has; repeated ones count too.
// The schema and no `Columns`, since its rows are read for the schema without a name.
pub fn read_table(text: &[u8], schema: &Schema, script: &[u8]) -> Result<usize, Fault>
    ensures reply { result ≡ table_reply (schema_of script.now schema.now) text.now }
    ensures right { length text.now ≤ text_bytes → TellsTable (schema_of script.now schema.now) text.now result }
{
    if text.len() > TEXT_BYTES {
        return Err(too_long());
    }
    Reader::new(text).pass_table(schema, script)
}
