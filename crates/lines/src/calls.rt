// The calls: one line each, at the start of the buffer. A buffer under `LINE_BYTES` is refused, even if the line would fit,
// and then it is left as it was. Every line fits `LINE_BYTES` bytes.
ghost use Rattle.std.specs.Prelude.{◌≡◌, ◌<◌, ◌≤◌, length, MatchResult};
ghost use Rattle.fault.specs.Limits.{line_bytes};
ghost use Rattle.schema.specs.Columns.{schema_of, held};
ghost use Rattle.schema.specs.Kinds.{type_of};
ghost use Rattle.texts.specs.Lines.{heading_line, row_line, end_line, atom_line, to_line, wish_line};
ghost use Rattle.lines.specs.Buffers.{WritesLine, too_small};
ghost use Rattle.lines.specs.Shown.{text_of, value_of, values_of, name_of};

use crate::entries::Entries;
use crate::shown::{Shown, Sources, Text};
use crate::writing::Line;
use fault::limits::{COLUMNS, LINE_BYTES};
use fault::{Fault, Place, Rule};
use schema::{Kind, Schema};

// The refusal of a buffer that is too small for some line.
fn fits(buffer: &[u8]) -> Result<(), Fault>
    ensures { MatchResult result (λ _. line_bytes ≤ length buffer.now) (λ f. (length buffer.now < line_bytes) × (f ≡ too_small)) }
{
    if buffer.len() < LINE_BYTES {
        return Err(Place::NOWHERE.fault(Rule::BufferTooSmall));
    }
    Ok(())
}

// `(a:i,b:s)`: the heading of a table.
pub fn heading_line(line: &mut [u8], schema: &Schema, script: &[u8]) -> Result<usize, Fault>
    ensures { WritesLine (heading_line (schema_of script.now schema.now)) line.old line.new result }
{
    fits(line)?;
    let mut heading = Line::new(line);
    heading.put_heading(schema, script);
    Ok(heading.length)
}

// `(3,"x")`: a row of a table, the first values of those given.
pub fn row_line(
    line: &mut [u8],
    schema: &Schema,
    values: &[Shown; COLUMNS],
    sources: Sources<'_>,
) -> Result<usize, Fault>
    ensures { WritesLine (row_line (values_of sources.entry (length (held schema.now)) values.now)) line.old line.new result }
{
    fits(line)?;
    let mut row = Line::new(line);
    row.put_entries(&sources, &values[..schema.width()]);
    Ok(row.length)
}

// `end`: the last line of a table.
pub fn end_line(line: &mut [u8]) -> Result<usize, Fault>
    ensures { WritesLine end_line line.old line.new result }
{
    fits(line)?;
    let mut end = Line::new(line);
    end.put_all(b"end\n");
    Ok(end.length)
}

// An atom.
pub fn atom_line(line: &mut [u8], value: Shown, sources: Sources<'_>) -> Result<usize, Fault>
    ensures { WritesLine (atom_line (value_of sources.entry value)) line.old line.new result }
{
    fits(line)?;
    let mut atom = Line::new(line);
    sources.put(&mut atom, &value);
    atom.put(b'\n');
    Ok(atom.length)
}

// `to "NAME"`: the first line of a print that has a name.
pub fn to_line(line: &mut [u8], name: Text, sources: Sources<'_>) -> Result<usize, Fault>
    ensures { WritesLine (to_line (text_of sources.entry name)) line.old line.new result }
{
    fits(line)?;
    let mut to = Line::new(line);
    to.put_all(b"to ");
    to.put_string(name.of(sources));
    to.put(b'\n');
    Ok(to.length)
}

// `from "NAME" FORMAT`, or `from input FORMAT`: which text is wanted.
pub fn wish_line(
    line: &mut [u8],
    source: Option<Text>,
    kind: &Kind,
    sources: Sources<'_>,
) -> Result<usize, Fault>
    ensures { WritesLine (wish_line (name_of sources.entry source) (type_of sources.entry.script.now kind.now)) line.old line.new result }
{
    fits(line)?;
    let mut wish = Line::new(line);
    wish.put_all(b"from ");
    wish.put_source(source, sources);
    wish.put(b' ');
    wish.put_format(kind, sources.script);
    Ok(wish.length)
}
