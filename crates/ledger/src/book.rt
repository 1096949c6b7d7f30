// Reading and rewriting the lines of a ledger. Each function is one pass over them.
ghost use Rattle.std.specs.Prelude.{◌≡◌, ◌≤◌, length, take, vec_capacity};
ghost use Rattle.std.specs.List.{slice_get};
ghost use Rattle.fault.specs.Limits.{columns};
ghost use Rattle.store.specs.Meaning.{same_row};
ghost use Rattle.ledger.specs.Lines.{lines_of, has_line, without, renumbered};

use crate::line::Line;

// How many rows the table has.
pub(crate) fn count_rows(lines: &[Line], table: u16) -> usize
    ensures { result ≡ length (lines_of table lines.now) }
{
    lines.iter().filter(|line| line.table == table).count()
}

// The table's row of this number, if it has so many.
// Counted down by hand: of `filter(..).nth(row)` the search finds no proof, with the lemmas on chains neither, since `nth` has no clause that names a list.
pub(crate) fn find_row(lines: &[Line], table: u16, row: usize) -> Option<Line>
    ensures { result ≡ slice_get (lines_of table lines.now) row }
{
    let mut left = row;
    for line in lines {
        if line.table == table {
            if left == 0 {
                return Some(*line);
            }
            left -= 1;
        }
    }
    None
}

// Whether the line begins with `row`.
fn starts_with(line: &Line, row: &[i64]) -> bool
    requires { length row.now ≤ columns }
    ensures { result ≡ same_row (take (length row.now) line.now.cells) row.now }
{
    &line.cells[..row.len()] == row
}

// Whether one of the table's rows is `row`.
pub(crate) fn has_row(lines: &[Line], table: u16, row: &[i64]) -> bool
    requires { length row.now ≤ columns }
    ensures { result ≡ has_line table row.now lines.now }
{
    lines
        .iter()
        .any(|line| line.table == table && starts_with(line, row))
}

// Takes out the table's lines.
pub(crate) fn remove(lines: &mut Vec<Line>, table: u16)
    ensures kept { lines.new.items ≡ without table lines.old.items }
    ensures capacity { vec_capacity lines.new ≡ vec_capacity lines.old }
{
    lines.retain(|line| line.table != table);
}

// Gives the lines of one table to another.
pub(crate) fn renumber(lines: &mut [Line], from: u16, to: u16)
    ensures { lines.new ≡ renumbered from to lines.old }
{
    for line in lines.iter_mut() {
        if line.table == from {
            line.table = to;
        }
    }
}
