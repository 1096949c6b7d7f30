// The search for an equal row: from the first row on, one comparison for each. Another search goes in here.
ghost use Rattle.std.specs.Prelude.{◌≡◌, ◌+◌, ◌*◌, ◌≤◌, length, drop};
ghost use Rattle.std.specs.List.{list_any};
ghost use Rattle.store.specs.Meaning.{same_cell, same_row, has};
ghost use Rattle.directory.specs.Run.{chunk};

// Whether the cells are the row: by the first cell, in which most rows differ, and then by the others.
fn same_row(cells: &[i64], row: &[i64]) -> bool
    ensures { result ≡ same_row cells.now row.now }
{
    match (cells, row) {
        ([first, others @ ..], [wanted, rest @ ..]) => first == wanted && others == rest,
        _ => cells == row,
    }
}

// Whether one of the cells is this one: a cell a turn, which takes half the time of the library's search by fours.
fn has_cell(cells: &[i64], wanted: &i64) -> bool
    ensures { result ≡ list_any (λ cell. same_cell cell wanted.now) cells.now }
{
    for cell in cells {
        if cell == wanted {
            return true;
        }
    }
    false
}

// Whether one of the `count` rows that begin at `from` is `row`.
pub(crate) fn has_row(cells: &[i64], from: usize, count: usize, row: &[i64]) -> bool
    requires { from + count * length row.now ≤ length cells.now }
    ensures { result ≡ has (chunk count (length row.now) (drop from cells.now)) row.now }
{
    let width = row.len();
    if width == 0 {
        // rows without cells are all equal
        return count > 0;
    }
    let rows = &cells[from..from + count * width];
    // narrow rows as arrays, so that each comparison has a fixed number of cells and no loop of its own
    if let [only] = row {
        return has_cell(rows, only);
    }
    if let [first, second] = row {
        return rows.as_chunks::<2>().0.contains(&[*first, *second]);
    }
    if let [first, second, third] = row {
        return rows.as_chunks::<3>().0.contains(&[*first, *second, *third]);
    }
    rows.chunks_exact(width).any(|each| same_row(each, row))
}
