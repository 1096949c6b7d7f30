// A text that is supplied for a table.
use pool::Source;
use schema::Schema;

// The text with the strings that are known before it is read, and the schema that it is asked for, whose names are parts of the script.
#[derive(Clone, Copy)]
pub struct Supply<'a> {
    pub source: Source<'a>,
    pub schema: &'a Schema,
    pub script: &'a [u8],
}
